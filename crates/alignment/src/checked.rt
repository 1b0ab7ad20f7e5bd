// The numbers that a step is made of. Each is checked once, where it is made.
ghost use Rattle.std.specs.Prelude.{◌≡◌, ◌≤◌, pos, ◌-ℤ◌, neg_ℤ, ◌≤ℤ◌};
ghost use Rattle.refusals.specs.Refusing.{Made};
ghost use Rattle.alignment.specs.Tile.{extra_check};

use formats::Format;
use refusals::Refusal;

// How many bits below the shared exponent are kept, 0 to 12.
#[derive(Clone, Copy)]
pub struct ExtraBits {
    pub(crate) bits: u32,
    ghost few: { bits ≤ 12 },
}

impl ExtraBits {
    pub fn new(bits: u32) -> Result<ExtraBits, Refusal>
        ensures { Made (extra_check bits) (λ x. x.bits ≡ bits) result }
    {
        if bits > 12 {
            return Err(Refusal::ExtraBits);
        }
        Ok(ExtraBits { bits })
    }

    pub fn bits(self) -> u32
        ensures { result ≡ self.bits }
    {
        self.bits
    }
}

// The exponent that words are lined up on. It starts at a format's least, and a survey raises it.
#[derive(Clone, Copy)]
pub struct SharedExponent {
    pub(crate) exponent: i32,
    ghost low: { neg_ℤ (pos 400) ≤ℤ exponent },
    ghost high: { exponent ≤ℤ pos 400 },
}

impl SharedExponent {
    // The shared exponent before any survey.
    pub fn least<F: Format>(format: &F) -> SharedExponent
        ensures { result.exponent ≡ (F.Format.meaning format.now).least }
    {
        let exponent = format.least();
        SharedExponent { exponent }
    }

    pub fn exponent(self) -> i32
        ensures { result ≡ self.exponent }
    {
        self.exponent
    }
}

// What aligned numbers count: 2^(shared exponent - extra bits).
#[derive(Clone, Copy)]
pub struct Step {
    pub shared: SharedExponent,
    pub extra: ExtraBits,
}

impl Step {
    // The step is 2 to this power.
    pub fn exponent(self) -> i32
        ensures { result ≡ self.shared.exponent -ℤ pos self.extra.bits }
    {
        self.shared.exponent - self.extra.bits as i32
    }
}
