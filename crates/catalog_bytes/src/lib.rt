// A catalog in lent bytes, as the firmware hands it in and as the office keeps it: an item's three numbers, read and stored.
#![tactic(auto)]

ghost use Rattle.std.specs.Prelude.{◌≡◌, ◌*◌};
ghost use Rattle.std.proofs.lemmas.List.Edits.{sets};
ghost use Rattle.landlord.specs.Catalog.{listed};
ghost use Rattle.catalog_bytes.specs.Catalogs.{item_in};
ghost use Rattle.catalog_bytes.specs.Inner.{item_bytes, HasItem};

// The bytes of an item, and of the most items there are.
pub const ITEM_BYTES: usize = 5;

pub const MOST_BYTES: usize = 1280;

// An item's three numbers, as a catalog lists them: its blocks, its load cost and its write cost.
#[derive(Clone, Copy, Debug, PartialEq, Eq)]
pub struct Item {
    pub blocks: u8,
    pub load: u16,
    pub write: u16,
}

// Item `i`. The low byte of a cost comes first.
pub fn get(catalog: &[u8], i: usize) -> Item
    requires { HasItem catalog.now i }
    ensures blocks { result.blocks ≡ (item_in catalog.now i).blocks }
    ensures load { result.load ≡ (item_in catalog.now i).load }
    ensures write { result.write ≡ (item_in catalog.now i).write }
{
    let at = ITEM_BYTES * i;
    Item {
        blocks: catalog[at],
        load: u16::from_le_bytes([catalog[at + 1], catalog[at + 2]]),
        write: u16::from_le_bytes([catalog[at + 3], catalog[at + 4]]),
    }
}

// Stores item `i`.
pub fn put(catalog: &mut [u8], i: usize, item: Item)
    requires { HasItem catalog.old i }
    ensures { catalog.new ≡ sets catalog.old (5 * i) (item_bytes (listed item.blocks item.load item.write)) }
{
    let at = ITEM_BYTES * i;
    let [load_low, load_high] = item.load.to_le_bytes();
    let [write_low, write_high] = item.write.to_le_bytes();
    let bytes = [item.blocks, load_low, load_high, write_low, write_high];
    catalog[at..at + ITEM_BYTES].copy_from_slice(&bytes);
}
