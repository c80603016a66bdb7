use satp_base::Name;

/// An owner's part of an asset.
#[derive(Clone, Copy, Debug, PartialEq, Eq, PartialOrd, Ord)]
pub struct Owned {
    pub asset: Name,
    pub owner: Name,
}
