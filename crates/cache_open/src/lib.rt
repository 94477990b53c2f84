// The opening of a state, in place on its bytes. Every refusal is decided before the first store, so a refused opening leaves every
// byte as it was.
#![tactic(auto)]

ghost use Rattle.std.specs.Prelude.{◌≡◌};
ghost use Rattle.types.specs.Types.{answer_told, answer_number, telling};
ghost use Rattle.landlord.specs.Calls.{opening};
ghost use Rattle.basis.specs.InnerDecided.{Decided};
ghost use Rattle.catalog_bytes.specs.Catalogs.{item_in};
ghost use Rattle.layout.specs.Layout.{cache_of};
ghost use Rattle.layout.specs.Inner.{Stands};
ghost use Rattle.cache_open.specs.Opening.{opening_number, OpenedLent};
ghost use Rattle.cache_open.specs.Inner.{BlocksOk, WholeCatalog, Enterable, entered_of};

use types::Refusal;

// Whether each of the first `n` items of a catalog has 1 to 16 blocks.
fn blocks_ok(catalog: &[u8], n: usize) -> bool
    requires { WholeCatalog n catalog.now }
    ensures { Decided (BlocksOk n (λ i. (item_in catalog.now i).blocks)) result }
{
    for i in 0..n {
        if !(1..=16).contains(&catalog_bytes::get(catalog, i).blocks) {
            return false;
        }
    }
    true
}

// What the table of refusals says of an opening: the state's length comes first (17), then the catalog's, the capacity and the blocks
// (3), then the rule's number (18). The costs are in range by their width.
fn opening_refused(size: usize, k: u32, rule: u32, catalog: &[u8]) -> Result<(), Refusal>
    ensures { answer_told result ≡ telling (opening_number size (opening k rule catalog.now)) 0 0 }
{
    if size != layout::STATE_BYTES {
        return Err(Refusal::InvalidState { line: 0 });
    }
    let n = catalog.len() / catalog_bytes::ITEM_BYTES;
    if catalog.len() % catalog_bytes::ITEM_BYTES != 0
        || catalog_bytes::MOST_BYTES < catalog.len()
        || !(1..=4096).contains(&k)
        || !blocks_ok(catalog, n)
    {
        return Err(Refusal::OutOfRange { line: 0 });
    }
    if 1 < rule {
        return Err(Refusal::UnknownRule { line: 0 });
    }
    Ok(())
}

// Stores the first `n` items of a catalog in their places.
fn put_items(b: &mut [u8], catalog: &[u8], n: usize)
    requires { Enterable b.old n catalog.now }
    ensures { Stands b.new (entered_of (cache_of b.old) catalog.now n) }
{
    for i in 0..n {
        let item = catalog_bytes::get(catalog, i);
        layout::put_blocks(b, i, item.blocks);
        layout::put_item_load_cost(b, i, item.load);
        layout::put_item_write_cost(b, i, item.write);
    }
}

// Opens the state for a cache of `k` blocks, a rule of deduction by its number, and the items of the catalog, five bytes each; what the
// bytes held is not looked at.
pub fn open(b: &mut [u8], k: u32, rule: u32, catalog: &[u8]) -> Result<(), Refusal>
    ensures opened { OpenedLent b.old (opening k rule catalog.now) (answer_number result) b.new }
    ensures tells { answer_told result ≡ telling (answer_number result) 0 0 }
{
    opening_refused(b.len(), k, rule, catalog)?;
    let n = catalog.len() / catalog_bytes::ITEM_BYTES;
    layout::clear(b);
    layout::put_capacity(b, k);
    layout::put_count(b, n);
    layout::put_rule(b, types::deduction_of(rule));
    put_items(b, catalog, n);
    Ok(())
}
