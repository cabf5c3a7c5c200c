// The two products and their fixed numbers, and the figures of an opening.
ghost use Rattle.std.specs.Prelude.{◌≡◌};
ghost use Rattle.funding.specs.Terms.{standard_terms};
ghost use Rattle.figures.specs.Figures.{hundredth, tenth, is_size, opened, opening_of};

use crate::Figures;
use funding::Terms;
use refusals::Refusal;

// A product, by its contract size in hundredths of a coin. It is that size and no enum: a size is all that a book keeps of it and
// all that its users ask it for.
#[derive(Clone, Copy, Debug, PartialEq, Eq)]
pub struct Product {
    pub size: u32,
}

impl Product {
    // The sizes: a hundredth and a tenth of a coin.
    pub const HUNDREDTH: u32 = 1;

    pub const TENTH: u32 = 10;
    // The clamp on the rate, in nano.
    pub const CLAMP: u32 = 2_000_000;
    // The spread limit, in units of 0.0001.
    pub const SPREAD: u16 = 50;

    // The contract of a hundredth of a coin. Document 01 asks for constructors of a product type, here one for each product.
    pub fn hundredth() -> Self
        ensures { result.size ≡ hundredth }
    {
        Self {
            size: Product::HUNDREDTH,
        }
    }

    // The contract of a tenth of a coin.
    pub fn tenth() -> Self
        ensures { result.size ≡ tenth }
    {
        Self {
            size: Product::TENTH,
        }
    }

    // Whether a product has this size.
    pub fn is_size(size: u32) -> bool
        ensures { result ≡ is_size size }
    {
        matches!(size, Product::HUNDREDTH | Product::TENTH)
    }

    pub fn terms() -> Terms
        ensures { result ≡ standard_terms }
    {
        Terms {
            below: Product::CLAMP,
            above: Product::CLAMP,
            spread: Product::SPREAD,
        }
    }

    // The opening: the fresh figures of the product of this size, or refusal 5 where no product has it.
    pub fn opening(size: u32) -> Result<Figures, Refusal>
        ensures { opening_of result ≡ opened size }
    {
        Refusal::Field.when(!Product::is_size(size))?;
        Ok(Figures::fresh(size))
    }
}
