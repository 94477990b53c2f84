// The two parts of the rule that run as they are defined: how a loss is split, and the ranges of a step's values. What the rule does with
// them is in specs/, and what runs is in the crates above.
#![tactic(auto)]

ghost use Rattle.std.specs.Prelude.{◌≡◌, ℕ};
ghost use Rattle.landlord.specs.Steps.{in_range, range_refusal};
ghost use Rattle.landlord.specs.Catalog.{listed, item_in_range};
ghost use Rattle.landlord.specs.Slot.{split_of};

use types::{Deduction, Numbers};

// The part of a loss that the write credit bears; the load credit bears the rest.
pub fn split(rule: Deduction, loss: u64, load: u64, write: u64) -> u64
    ensures { (blocks : ℕ) → result ≡ split_of rule blocks loss load write }
{
    match rule {
        Deduction::WriteFirst => loss.min(write),
        Deduction::LoadFirst => loss.saturating_sub(load),
    }
}

// Whether an item's blocks and costs are in their ranges.
pub fn item_in_range(blocks: u32, load: u32, write: u32) -> bool
    ensures { result ≡ item_in_range (listed blocks load write) }
{
    (1..=16).contains(&blocks) && load <= 65535 && write <= 65535
}

// Whether a step's kind is one of R, W, L, A and Q, and the values that such a step has are in their ranges.
pub fn in_range(n: Numbers) -> bool
    ensures { result ≡ in_range n }
{
    let item = n.item <= 255;
    match n.kind {
        types::READ | types::RETIRE => item,
        types::WRITE => item && n.minutes <= 1440,
        types::ARRIVE => item && item_in_range(n.blocks, n.load, n.write),
        types::FLUSH => true,
        _ => false,
    }
}

// What a step is refused with by its numbers: 3 if they are out of range, else 0.
#[tactic(auto, unfolding(crate::specs::Steps::range_refusal))]
pub fn range_refusal(n: Numbers) -> u32
    ensures { result ≡ range_refusal n }
{
    if in_range(n) { 0 } else { 3 }
}
