//! Which layout a word names, and requests put to it.
use crate::outcome::Outcome;
use base::refusal::Refusal;
use layout::named::NamedLayout;
use layout::table::Published;
use layoutfile::file::FileLayout;
use std::fs;

/// What is asked of a layout.
pub(crate) trait Request {
    /// Answers for a layout, which the word names.
    fn answer<N: NamedLayout>(
        &self,
        rt: &HostRuntime,
        word: &str,
        layout: &N,
    ) -> anyhow::Result<Outcome>;
}

/// Prints why something was refused.
pub(crate) fn refuse(rt: &HostRuntime, word: &str, refusal: Refusal) -> anyhow::Result<Outcome> {
    println!(rt; "{word}: {refusal}")?;
    Ok(Outcome::Refused)
}

/// Puts a request to the layout that a word names: a published one, or that of a file.
pub(crate) fn ask<R: Request>(
    rt: &HostRuntime,
    word: &str,
    request: &R,
) -> anyhow::Result<Outcome> {
    if let Ok(layout) = word.parse::<Published>() {
        return request.answer(rt, word, &layout);
    }
    let Ok(octets) = fs::read(rt, word) else {
        println!(rt; "{word}: no published layout, and no file that can be read")?;
        return Ok(Outcome::Refused);
    };
    match FileLayout::try_from(octets.as_slice()) {
        Ok(layout) => request.answer(rt, word, &layout),
        Err(fault) => refuse(rt, word, fault.into()),
    }
}
