// Extensions of M31, CM31 and QM31, with elements of M31 in both orders (stwo's ExtensionOf, and the macros of fields/mod.rs).
ghost use Rattle.std.specs.Prelude.{◌≡◌, ℕ};
ghost use Rattle.algebra.specs.Ring.{sub};
ghost use Rattle.fields.specs.M31.{m31_field};
ghost use Rattle.fields.specs.Extension.{from_base_answer, add_base_answer, sub_base_answer, mul_base_answer, div_base_answer};
ghost use Rattle.fields.specs.Extension.{base_sub_answer, base_div_answer};

use crate::field::Field;
use crate::m31::M31;
use crate::refusal::Refusal;

pub trait Extension: Field {
    // the element of M31 with a word, in the extension
    ghost embed: { ℕ → Self };

    fn embedded(m: M31) -> Self
        ensures { result ≡ embed m.0 };

    fn plus_m31(self, rhs: M31) -> Self
        requires { (Self.field.Reduced self) × (m31_field.Reduced rhs) }
        ensures { (Self.field.value result
            ≡ Self.field.words.add (Self.field.value self) (Self.field.value (embed rhs.0)))
            × Self.field.Reduced result };

    fn minus_m31(self, rhs: M31) -> Self
        requires { (Self.field.Reduced self) × (m31_field.Reduced rhs) }
        ensures { (Self.field.value result
            ≡ sub Self.field.words (Self.field.value self) (Self.field.value (embed rhs.0)))
            × Self.field.Reduced result };

    fn times_m31(self, rhs: M31) -> Self
        requires { (Self.field.Reduced self) × (m31_field.Reduced rhs) }
        ensures { (Self.field.value result
            ≡ Self.field.words.mul (Self.field.value self) (Self.field.value (embed rhs.0)))
            × Self.field.Reduced result };

    final fn from_base(m: M31) -> Result<Self, Refusal>
        ensures { result ≡ from_base_answer Self.field embed m }
    {
        m.check()?;
        Ok(Self::embedded(m))
    }

    final fn add_m31(self, rhs: M31) -> Result<Self, Refusal>
        ensures { result ≡ add_base_answer Self.field embed self rhs }
    {
        self.check()?;
        rhs.check()?;
        Ok(self.plus_m31(rhs))
    }

    final fn sub_m31(self, rhs: M31) -> Result<Self, Refusal>
        ensures { result ≡ sub_base_answer Self.field embed self rhs }
    {
        self.check()?;
        rhs.check()?;
        Ok(self.minus_m31(rhs))
    }

    final fn mul_m31(self, rhs: M31) -> Result<Self, Refusal>
        ensures { result ≡ mul_base_answer Self.field embed self rhs }
    {
        self.check()?;
        rhs.check()?;
        Ok(self.times_m31(rhs))
    }

    final fn div_m31(self, rhs: M31) -> Result<Self, Refusal>
        ensures { result ≡ div_base_answer Self.field embed self rhs }
    {
        self.check()?;
        rhs.check()?;
        rhs.check_nonzero()?;
        Ok(self.times_m31(rhs.inverted()))
    }
}

// M31 on the left.
impl M31 {
    pub fn add_extension<E: Extension>(self, rhs: E) -> Result<E, Refusal>
        ensures { result ≡ add_base_answer E.field E.embed rhs self }
    {
        rhs.add_m31(self)
    }

    pub fn sub_extension<E: Extension>(self, rhs: E) -> Result<E, Refusal>
        ensures { result ≡ base_sub_answer E.field E.embed self rhs }
    {
        self.check()?;
        rhs.check()?;
        Ok(rhs.negated().plus_m31(self))
    }

    pub fn mul_extension<E: Extension>(self, rhs: E) -> Result<E, Refusal>
        ensures { result ≡ mul_base_answer E.field E.embed rhs self }
    {
        rhs.mul_m31(self)
    }

    pub fn div_extension<E: Extension>(self, rhs: E) -> Result<E, Refusal>
        ensures { result ≡ base_div_answer E.field E.embed self rhs }
    {
        self.check()?;
        rhs.check()?;
        rhs.check_nonzero()?;
        Ok(rhs.inverted().times_m31(self))
    }
}
