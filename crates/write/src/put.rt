//! The octets of a packet that is written, each put once.
ghost use Rattle.std.specs.Prelude.{◌≡◌, ◌≤◌, ◌+◌, [], ◌∷◌, ◌++◌, length};
ghost use Rattle.frame.specs.Pieces.{joined};
ghost use Rattle.write.specs.Writing.{pieces_for, plain_frame, head_of, packet_of};

use crate::check::octets_in;
use crate::write::{HEAD, Plan};
use base::number::put_number;
use layout::layout::Layout;

/// Puts the items of a record, one after another.
fn put_items<L: Layout>(plan: &Plan<'_, L>, out: &mut [u8])
    requires { length out.old ≡ plan.now.size }
    ensures { out.new ≡ joined (pieces_for (L.meaning plan.now.record.lawful.layout.now).items plan.now.record.rows.now) }
{
    let mut at = 0;
    for (item, row) in plan.record.lawful.items().zip(plan.record.rows) {
        let end = at + octets_in(&item, *row);
        put_number(row.value, &mut out[at..end]);
        at = end;
    }
}

/// Puts a frame in plain form and the next type 0 behind it: the items, and zeros.
fn put_frame<L: Layout>(plan: &Plan<'_, L>, out: &mut [u8])
    requires { length out.old ≡ plan.now.frame + 1 }
    ensures { out.new ≡ plain_frame (L.meaning plan.now.record.lawful.layout.now).items plan.now.record.rows.now ++ 0 ∷ [] }
{
    let (items, behind) = out.split_at_mut(plan.size);
    put_items(plan, items);
    behind.fill(0);
}

/// The octets in front of the frame: the first twelve of a G-PDU, and the container's unit count.
fn head(frame: usize, teid: u32, inner: usize) -> [u8; HEAD]
    requires small { frame ≤ 1018 }
    requires most { frame + inner ≤ 9202 }
    ensures { result ≡ head_of frame teid inner }
{
    let [l1, l0] = ((frame + inner + 6) as u16).to_be_bytes();
    let [t3, t2, t1, t0] = teid.to_be_bytes();
    let units = ((frame + 2) / 4) as u8;
    [0x34, 0xFF, l1, l0, t3, t2, t1, t0, 0, 0, 0, 0x85, units]
}

/// Puts the packet of a plan.
#[tactic(auto, using(crate::proofs::Putting::packet_put))]
pub(crate) fn put_packet<L: Layout>(plan: &Plan<'_, L>, teid: u32, out: &mut [u8])
    requires { length out.old ≡ plan.now.count }
    ensures { out.new ≡ packet_of teid (plain_frame (L.meaning plan.now.record.lawful.layout.now).items plan.now.record.rows.now) plan.now.inner.now }
{
    let (front, rest) = out.split_at_mut(HEAD);
    let (frame, inner) = rest.split_at_mut(plan.frame + 1);
    front.copy_from_slice(&head(plan.frame, teid, plan.inner.len()));
    put_frame(plan, frame);
    inner.copy_from_slice(plan.inner);
}
