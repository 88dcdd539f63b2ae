//! The published layouts as tables: 3GPP TS 38.415 v16.1.0, v16.3.0 and v19.1.0. A row is made when it is asked for: a constant
//! that holds items would be built anew, whole, at each asking.
ghost use Rattle.std.specs.Prelude.{◌≡◌, ◌^◌, ◌<◌, ◌≤◌, [], ◌∷◌, length};
ghost use Rattle.std.specs.List.{slice_get};
ghost use Rattle.std.specs.Option.{option_map};
ghost use Rattle.layout.specs.Items.{ungoverned, governed_by};
ghost use Rattle.layout.specs.Tables.{dl_16, ul_first, ndr, ul_19_further, published as rows_of, row_meaning, octet, number_up_to};
ghost use Rattle.layout.specs.Views.{governor_meaning};

use crate::item::Item;
use crate::kind::{Governor, Kind};
use crate::name::Name;

/// A published layout: downlink (DL PDU SESSION INFORMATION) or uplink (UL PDU SESSION INFORMATION), by release.
#[derive(Clone, Copy, PartialEq, Eq, Debug)]
pub enum Published {
    Dl16,
    Ul161,
    Ul163,
    Ul19,
}

/// A row of a table: an item and its name.
#[derive(Clone, Copy)]
pub struct TableRow {
    pub name: Name,
    pub item: Item,
}

/// A nameless bits octet without named bits, which stands in the free places of a fixed table.
impl Default for TableRow {
    ghost is_default = { λ row. row_meaning row ≡ record { name = 0 ∷ 0 ∷ 0 ∷ []; item = octet ungoverned 0 } };

    fn default() -> TableRow {
        bits([0; 3], None, 0)
    }
}

const MAX_3: u64 = 0xff_ffff;

const MAX_4: u64 = 0xffff_ffff;

const MAX_8: u64 = 0xffff_ffff_ffff_ffff;

/// What an item hangs on: this bit of this item.
fn by(item: u8, bit: u8) -> Option<Governor>
    requires { bit < 8 }
    ensures { governor_meaning result ≡ governed_by item bit }
{
    Some(Governor { item, bit })
}

/// A bits octet with its named bits.
fn bits(letters: [u8; 3], governor: Option<Governor>, mask: u8) -> TableRow
    ensures { row_meaning result ≡ record { name = letters; item = octet (governor_meaning governor) mask } }
{
    TableRow {
        name: Name { letters },
        item: Item {
            kind: Kind::Bits,
            governor,
            length: 1,
            mask,
            limit: 0,
        },
    }
}

/// A number of so many octets with its greatest value.
fn number(letters: [u8; 3], governor: Option<Governor>, length: u8, limit: u64) -> TableRow
    requires some { 1 ≤ «length» }
    requires most { «length» ≤ 8 }
    requires fits { limit < 256 ^ «length» }
    ensures { row_meaning result ≡ record { name = letters; item = number_up_to (governor_meaning governor) «length» limit } }
{
    TableRow {
        name: Name { letters },
        item: Item {
            kind: Kind::Number,
            governor,
            length,
            mask: 0,
            limit,
        },
    }
}

/// The downlink layout of both 16 releases.
fn downlink(i: usize) -> Option<TableRow>
    ensures { option_map row_meaning result ≡ slice_get dl_16 i }
{
    let row = match i {
        0 => bits(*b"HD0", None, 252), // QMP (bit 3), SNP (bit 2); bits 7 to 4 PDU Type
        1 => bits(*b"HD1", None, 255), // PPP (bit 7), RQI (bit 6), QoS Flow Identifier (bits 5 to 0)
        2 => bits(*b"PPI", by(1, 7), 224), // Paging Policy Indicator (bits 7 to 5)
        3 => number(*b"DST", by(0, 3), 8, MAX_8), // DL Sending Time Stamp
        4 => number(*b"DSN", by(0, 2), 3, MAX_3), // DL QFI Sequence Number
        _ => return None,
    };
    Some(row)
}

/// The items that all uplink layouts begin with; each release names further bits of HD1.
fn uplink(i: usize, hd1: u8) -> Option<TableRow>
    ensures { option_map row_meaning result ≡ slice_get (ul_first hd1) i }
{
    let row = match i {
        0 => bits(*b"HD0", None, 255), // bits 7 to 4 PDU Type; QMP, DL Delay Ind., UL Delay Ind., SNP (bits 3 to 0)
        1 => bits(*b"HD1", None, hd1), // QoS Flow Identifier (bits 5 to 0)
        2 => number(*b"DSR", by(0, 3), 8, MAX_8), // DL Sending Time Stamp Repeated
        3 => number(*b"DRT", by(0, 3), 8, MAX_8), // DL Received Time Stamp
        4 => number(*b"UST", by(0, 3), 8, MAX_8), // UL Sending Time Stamp
        5 => number(*b"DDR", by(0, 2), 4, MAX_4), // DL Delay Result
        6 => number(*b"UDR", by(0, 1), 4, MAX_4), // UL Delay Result
        7 => number(*b"USN", by(0, 0), 3, MAX_3), // UL QFI Sequence Number
        _ => return None,
    };
    Some(row)
}

/// The item that release 16.3 adds.
fn n3_n9_delay() -> TableRow
    ensures { row_meaning result ≡ ndr }
{
    number(*b"NDR", by(1, 7), 4, MAX_4) // N3/N9 Delay Result
}

/// The items that release 19.1 adds behind it.
fn new_elements(k: usize) -> Option<TableRow>
    ensures { option_map row_meaning result ≡ slice_get ul_19_further k }
{
    let row = match k {
        0 => bits(*b"NIF", by(1, 6), 31), // New IE Flag 0 to 4
        1 => bits(*b"D1I", by(9, 0), 1), // D1 UL PDCP Delay Result Ind
        2 => number(*b"UCI", by(9, 1), 2, 10000), // UL Congestion Information
        3 => number(*b"DCI", by(9, 2), 2, 10000), // DL Congestion Information
        4 => number(*b"UAB", by(9, 3), 4, 4000000000), // UL Available Bitrate
        5 => number(*b"DAB", by(9, 4), 4, 4000000000), // DL Available Bitrate
        _ => return None,
    };
    Some(row)
}

impl Published {
    /// How many rows the table of a published layout has.
    pub(crate) fn row_count(self) -> usize
        ensures { result ≡ length (rows_of self) }
    {
        match self {
            Published::Dl16 => 5,
            Published::Ul161 => 8,
            Published::Ul163 => 9,
            Published::Ul19 => 15,
        }
    }

    /// Row number `i` of the table of a published layout, and none past its end.
    pub(crate) fn row(self, i: usize) -> Option<TableRow>
        ensures { option_map row_meaning result ≡ slice_get (rows_of self) i }
    {
        match (self, i) {
            (Published::Dl16, _) => downlink(i),
            (Published::Ul161, _) => uplink(i, 0x3f),
            (Published::Ul163, 0..=7) => uplink(i, 0xbf), // N3/N9 Delay Ind. (bit 7)
            (Published::Ul19, 0..=7) => uplink(i, 0xff), // New IE Flag (bit 6) too
            (Published::Ul163 | Published::Ul19, 8) => Some(n3_n9_delay()),
            (Published::Ul163, _) => None,
            (Published::Ul19, _) => new_elements(i - 9),
        }
    }
}
