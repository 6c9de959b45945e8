ghost use Rattle.std.specs.Prelude.{◌≡◌, [], ◌∷◌, IfOk};
ghost use Rattle.layers.specs.Drafts.{drafted};

use cart::Cart;
use guard::geometry::Region;
use layers::draft::Draft;
use layers::draft::refusal::DraftRefusal;
use layers::fence::Fence;

// A cart behind a fence of one region, as a client makes it. A sealed draft is used up: a later fence takes a new draft.
pub fn fenced_cart(cart: Cart, region: Region) -> Result<Fence<Cart>, DraftRefusal>
    ensures { IfOk result (λ f. drafted f.layer ≡ region ∷ []) }
{
    let mut draft = Draft::new();
    draft.add(region)?;
    Ok(draft.seal(cart))
}
