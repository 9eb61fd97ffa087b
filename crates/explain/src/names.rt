//! The names of sites.

use base::Pos;

/// What a site is called in a report, and where it stands in the text.
#[derive(Drop)]
pub struct SiteName {
    pub pos: Pos,
    pub name: Vec<u8>,
}
