use satp_base::Name;

/// An amount of an asset that its owner is free to use, as a whole.
#[derive(Clone, Copy, Debug, PartialEq, Eq)]
pub struct Output {
    pub asset: Name,
    pub owner: Name,
    /// Units of the asset.
    pub amount: u64,
}
