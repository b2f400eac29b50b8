//! The record table: what it holds, and what its fields always keep.
ghost use Rattle.std.specs.Prelude.{◌≡◌, ℕ, ◌≤◌, length};
ghost use Rattle.record_table.specs.Chains.{numbered, first_of, LinksLow};
ghost use Rattle.record_table.specs.Laid.{Laid};

use crate::chains::Chains;

/// A policy that keeps a record for each pair with operations. Chain 0 has the unused records, and chain s those of context s.
#[derive(Drop)]
pub struct RecordTable {
    pub(crate) contexts: u16,
    pub(crate) chains: Chains,
    ghost sizes: { (1 ≤ contexts) × (contexts ≤ 256) × (length chains.heads ≡ 257) × (length chains.slots ≡ 1024) },
    ghost firsts: { (c : ℕ) → first_of chains.heads c ≤ 1024 },
    ghost links: { LinksLow chains.slots },
    ghost laid: { ∥ Laid contexts (first_of chains.heads) (numbered chains.slots) ∥₁ },
}
