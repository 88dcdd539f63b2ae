//! Published layouts by their names.
ghost use Rattle.layout.specs.Sources.{IsNamed};

use crate::table::Published;
use std::str::FromStr;

/// A text that names no published layout.
#[derive(Clone, Copy, PartialEq, Eq, Debug)]
pub struct NotPublished;

/// The published layout of a name: `DL16`, `UL16.1`, `UL16.3` or `UL19`.
impl FromStr for Published {
    type Err = NotPublished;

    ghost from_str_gives = { IsNamed };

    fn from_str(name: &str) -> Result<Published, NotPublished> {
        match name {
            "DL16" => Ok(Published::Dl16),
            "UL16.1" => Ok(Published::Ul161),
            "UL16.3" => Ok(Published::Ul163),
            "UL19" => Ok(Published::Ul19),
            _ => Err(NotPublished),
        }
    }
}
