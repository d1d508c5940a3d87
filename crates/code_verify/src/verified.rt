//! Verified images.
ghost use Rattle.std.specs.Prelude.{◌≡◌, IfOk, IfErr, IfNone, IfSome};
ghost use Rattle.tx_code.specs.Views.{image_view};
ghost use Rattle.tx_code.specs.Sound.{Sound};
ghost use Rattle.code_verify.specs.Refused.{Refuses};
ghost use Rattle.code_verify.specs.Places.{FirstBroken};

use crate::faults::{Broken, image_fault};
use std::alloc::{AllocError, Global};
use std::marker::Model;
use tx_code::Image;

/// An image that is sound.
#[derive(Drop)]
pub struct GoodImage {
    image: Image,
}

impl Model for GoodImage {
    ghost use Rattle.tx_code.specs.declared.image.Image.{Image};
    ghost use Rattle.tx_code.specs.Views.{image_view};
    ghost use Rattle.tx_code.specs.Sound.{Sound};

    ghost Value = { Image };

    ghost view = { λ good. good.image };

    ghost invariant = { λ good. Sound (image_view good.image) };
}

/// Why an image is refused.
#[derive(PartialEq, Eq, Debug, Drop)]
pub enum BadCode {
    /// The numbered clause of sound code is broken first at this index of this function; the instructions of a safe
    /// body are counted behind those of the plain body.
    Rule { func: u32, index: u64, rule: u32 },
    /// Memory ran out.
    Memory,
}

// The first broken clause.
fn judge(alloc: Global, image: &Image) -> Result<Option<Broken>, AllocError>
    ensures sound { IfOk result (λ o. IfNone o (Sound (image_view image.now))) }
    ensures broken { IfOk result (λ o. IfSome o (λ _. Sound (image_view image.now) → ⊥)) }
    ensures first { IfOk result (λ o. IfSome o (λ p. FirstBroken (image_view image.now) p.func p.index p.rule)) }
{
    image_fault(alloc, image)
}

/// The image, where it is sound; it is given up where it is not.
pub fn verify(alloc: Global, image: Image) -> Result<GoodImage, BadCode>
    ensures same { IfOk result (λ good. good ≡ image) }
    ensures sound { IfOk result (λ good. Sound (image_view image)) }
    ensures refused { IfErr result (λ bad. Refuses (image_view image) bad) }
{
    match judge(alloc, &image) {
        Err(_) => Err(BadCode::Memory),
        Ok(Some(broken)) => Err(BadCode::Rule {
            func: broken.func,
            index: broken.index as u64,
            rule: broken.rule,
        }),
        Ok(None) => Ok(GoodImage { image }),
    }
}

impl GoodImage {
    /// The image.
    pub fn image(&self) -> &Image
        ensures same { result.now ≡ self.now }
        ensures sound { Sound (image_view result.now) }
    {
        &self.image
    }
}
