ghost use Rattle.std.specs.Prelude.{◌≡◌, ◌≤◌, length, option_map, IfSome, Some};
ghost use Rattle.satp_base.specs.Founding.{amount_number, cap_among, equal_names, held_among, most_holds};
ghost use Rattle.satp_base.specs.GenesisText.{hold_text, line_text, part_text};
ghost use Rattle.satp_base.specs.declared.genesis.Line.{Line};
ghost use Rattle.satp_base.specs.declared.amount.Amount.{Amount};
ghost use Rattle.satp_base.specs.declared.genesis.Hold.{Hold};
ghost use Rattle.satp_base.specs.declared.name.Name.{Name};

use crate::amount::Amount;
use crate::fields::cut_field;
use crate::lines::{AddFault, LineReader, LinesFault, read_lines};
use crate::name::Name;
use crate::text::Memory;
use std::alloc::Global;
use std::marker::Model;

/// An asset of a ledger.
#[derive(Clone, Copy, Debug, PartialEq, Eq)]
pub struct Asset {
    pub name: Name,
    /// The most units that there may ever be.
    pub cap: Amount,
}

/// What an owner has of an asset before the first operation.
#[derive(Clone, Copy, Debug, PartialEq, Eq)]
pub struct Hold {
    pub asset: Name,
    pub owner: Name,
    pub amount: Amount,
}

/// Why a text is no genesis.
pub type GenesisFault = LinesFault;

/// The assets and first holdings of a ledger, in order.
#[derive(Drop)]
pub struct Genesis {
    assets: Vec<Asset>,
    holds: Vec<Hold>,
}

impl Model for Genesis {
    ghost use Rattle.satp_base.specs.Founding.{Founding, coded_founding};

    ghost Value = { Founding };

    ghost coded = { coded_founding };

    ghost use Rattle.satp_base.specs.Genesis.{IsGenesis};

    ghost view = { λ g. record { assets = g.assets.items; holds = g.holds.items } };

    ghost invariant = { λ g. IsGenesis (record { assets = g.assets.items; holds = g.holds.items }) };
}

/// Two names are one.
fn are_equal(a: Name, b: Name) -> bool
    ensures { result ≡ equal_names a b }
{
    b == a
}

/// The cap of an asset.
fn cap_in(assets: &[Asset], name: Name) -> Option<Amount>
    ensures { option_map amount_number result ≡ cap_among assets.now name }
{
    let asset = assets.iter().find(|asset| are_equal(name, asset.name))?;
    Some(asset.cap)
}

/// The sum of an asset's holdings.
fn held_in(holds: &[Hold], asset: Name) -> u64
    requires { length holds.now ≤ most_holds }
    ensures { result ≡ held_among holds.now asset }
{
    let mut sum = 0;
    for hold in holds {
        if are_equal(asset, hold.asset) {
            sum += hold.amount.get();
        }
    }
    sum
}

/// Reads `<name> <amount>`.
fn read_part(text: &[u8]) -> Option<(Name, Amount)>
    ensures read { IfSome result (λ part. text.now ≡ part_text part) }
    ensures complete { (part : Name × Amount) → text.now ≡ part_text part → result ≡ Some part }
{
    let (name, Some(amount)) = cut_field(text) else {
        return None;
    };
    let (Ok(name), Ok(amount)) = (Name::read(name), Amount::read(amount)) else {
        return None;
    };
    Some((name, amount))
}

/// Reads `<asset> <owner> <amount>`.
fn read_hold(text: &[u8]) -> Option<Hold>
    ensures read { IfSome result (λ hold. text.now ≡ hold_text hold) }
    ensures complete { (hold : Hold) → text.now ≡ hold_text hold → result ≡ Some hold }
{
    let (asset, Some(rest)) = cut_field(text) else {
        return None;
    };
    let (Ok(asset), Some((owner, amount))) = (Name::read(asset), read_part(rest)) else {
        return None;
    };
    Some(Hold {
        asset,
        owner,
        amount,
    })
}

/// What a line adds.
enum Line {
    Asset(Name, Amount),
    Hold(Hold),
}

/// Reads a line.
fn read_line(line: &[u8]) -> Option<Line>
    ensures read { IfSome result (λ parsed. line.now ≡ line_text parsed) }
    ensures complete { (parsed : Line) → line.now ≡ line_text parsed → result ≡ Some parsed }
{
    let (kind, Some(text)) = cut_field(line) else {
        return None;
    };
    if kind == b"asset".as_slice() {
        let (name, cap) = read_part(text)?;
        return Some(Line::Asset(name, cap));
    }
    if kind == b"hold".as_slice() {
        let hold = read_hold(text)?;
        return Some(Line::Hold(hold));
    }
    None
}

impl Genesis {
    ghost use Rattle.std.specs.Prelude.{◌≡◌, [], Err, IfOk, OnOk, OnErr, MatchResult, slice_get};
    ghost use Rattle.satp_base.specs.Lines.{Fails, IsLines};
    ghost use Rattle.satp_base.specs.GenesisText.{AcceptsLine, most_bytes, nothing};
    ghost use Rattle.satp_base.specs.Founding.{Founding};
    ghost use Rattle.satp_base.specs.Genesis.{IsGenesis, AddsAsset, AddsHold, asset_pair, hold_triple};

    /// The most assets of a genesis.
    pub const ASSETS: usize = 16;

    /// The most holdings of a genesis.
    pub const HOLDS: usize = 256;

    /// The most bytes of a genesis's text.
    pub const BYTES: usize = 65_536;

    /// No asset and no holding. It takes no memory.
    pub fn new(alloc: Global) -> Genesis
        ensures assets { result.assets ≡ [] }
        ensures holds { result.holds ≡ [] }
    {
        Genesis {
            assets: Vec::new(alloc),
            holds: Vec::new(alloc),
        }
    }

    /// Adds an asset of a name that isn't there yet.
    pub fn add_asset(&mut self, name: Name, cap: Amount) -> Result<(), AddFault>
        ensures ok { OnOk result (AddsAsset self.old (record { name = name; cap = cap }) self.new) }
        ensures refused { result ≡ Err AddFault.Refused → (new : Founding) → ¬ AddsAsset self.old (record { name = name; cap = cap }) new }
        ensures err { OnErr result (self.new ≡ self.old) }
    {
        if self.assets.len() >= Genesis::ASSETS || cap_in(&self.assets, name).is_some() {
            return Err(AddFault::Refused);
        }
        match self.assets.push(Asset { name, cap }) {
            Ok(()) => Ok(()),
            Err(_) => Err(AddFault::Memory),
        }
    }

    /// Adds a holding of an asset that is there, if all its holdings stay within its cap.
    pub fn add_hold(&mut self, asset: Name, owner: Name, amount: Amount) -> Result<(), AddFault>
        ensures ok { OnOk result (AddsHold self.old (record { asset = asset; owner = owner; amount = amount }) self.new) }
        ensures refused { result ≡ Err AddFault.Refused → (new : Founding) → ¬ AddsHold self.old (record { asset = asset; owner = owner; amount = amount }) new }
        ensures err { OnErr result (self.new ≡ self.old) }
    {
        let Some(cap) = cap_in(&self.assets, asset) else {
            return Err(AddFault::Refused);
        };
        if self.holds.len() >= Genesis::HOLDS
            || held_in(&self.holds, asset) + amount.get() > cap.get()
        {
            return Err(AddFault::Refused);
        }
        let hold = Hold {
            asset,
            owner,
            amount,
        };
        match self.holds.push(hold) {
            Ok(()) => Ok(()),
            Err(_) => Err(AddFault::Memory),
        }
    }

    /// Reads lines `asset <name> <cap>` and `hold <asset> <owner> <amount>`, whose fields are parted by one space.
    ///
    /// An asset's name stands once; a holding's asset stands above it, and the sum of an asset's holdings is at most its cap.
    /// At most 16 assets, 256 holdings and 65,536 bytes. The empty text is a genesis without assets.
    /// `Long` comes for more bytes, `Line` for the first line that is refused, an open last line too.
    pub fn read(alloc: Global, text: &[u8]) -> Result<Genesis, GenesisFault>
        ensures read { MatchResult result
            (λ genesis. IsLines AcceptsLine most_bytes text.now nothing genesis)
            (λ fault. Fails AcceptsLine most_bytes text.now nothing fault) }
        ensures complete { (genesis : Founding) → IsLines AcceptsLine most_bytes text.now nothing genesis → MatchResult result
            (λ found. found ≡ genesis)
            (λ fault. fault ≡ LinesFault.Memory) }
    {
        let mut genesis = Genesis::new(alloc);
        read_lines(&mut genesis, text, Genesis::BYTES)?;
        Ok(genesis)
    }

    /// The same assets and holdings once more.
    pub fn copy(&self, alloc: Global) -> Result<Genesis, Memory>
        ensures { IfOk result (λ copy. copy ≡ self.now) }
    {
        Ok(Genesis {
            assets: Vec::from_slice(alloc, self.assets.as_slice())?,
            holds: Vec::from_slice(alloc, self.holds.as_slice())?,
        })
    }

    /// The cap of an asset; none exactly where there is no such asset.
    pub fn cap(&self, asset: Name) -> Option<Amount>
        ensures cap { option_map amount_number result ≡ cap_among self.now.assets asset }
        ensures valid { IsGenesis self.now }
    {
        cap_in(&self.assets, asset)
    }

    /// An asset and its cap, by its place from 0.
    pub fn asset_at(&self, index: usize) -> Option<(Name, Amount)>
        ensures asset { result ≡ option_map asset_pair (slice_get self.now.assets index) }
        ensures valid { IsGenesis self.now }
    {
        self.assets.get(index).map(|asset| (asset.name, asset.cap))
    }

    /// The asset, owner and amount of a holding, by its place from 0.
    pub fn hold_at(&self, index: usize) -> Option<(Name, Name, Amount)>
        ensures hold { result ≡ option_map hold_triple (slice_get self.now.holds index) }
        ensures valid { IsGenesis self.now }
    {
        self.holds
            .get(index)
            .map(|hold| (hold.asset, hold.owner, hold.amount))
    }
}

impl LineReader for Genesis {
    ghost use Rattle.satp_base.specs.GenesisText.{AcceptsLine};

    ghost accepts = { AcceptsLine };

    fn add(&mut self, line: &[u8]) -> Result<(), AddFault> {
        match read_line(line) {
            Some(Line::Asset(name, cap)) => self.add_asset(name, cap),
            Some(Line::Hold(hold)) => self.add_hold(hold.asset, hold.owner, hold.amount),
            None => Err(AddFault::Refused),
        }
    }
}
