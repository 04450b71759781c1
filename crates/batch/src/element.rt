// What batch inversion needs of the elements of a column.
ghost use Rattle.std.specs.Prelude.{◌≡◌, ℕ, ◌+◌, ◌*◌, ◌<◌, ◌≤◌, length, true, Ok};
ghost use Rattle.fields.specs.Check.{outcome};
ghost use Rattle.batch.specs.Batch.{ColumnField, invertible};
ghost use Rattle.batch.specs.Passes.{Units, size, at};
ghost use Rattle.batch.specs.PassContracts.{Factors};
ghost use Rattle.batch.specs.Elements.{ElementLaws, ColumnLaws};

use fields::field::Field;

// What the passes of Montgomery's trick go over: one element of a field, or four side by side (`Lanes`).
pub trait Element: Copy {
    // how elements lie in a column, and what holds of those that can be inverted
    ghost units: { Units };

    ghost value: { Self → units.layout.El };

    ghost WIDTH: { ℕ };

    ghost MULTIPLICATIONS: { ℕ };

    // words of an element
    const WIDTH: usize;

    // multiplications of the field in a product
    const MULTIPLICATIONS: u64;

    // The element at a word.
    fn load(column: &[u32], from: usize) -> Self
        requires { from + units.layout.width ≤ length column.now }
        ensures { value result ≡ units.layout.read column.now from };

    fn store(self, dst: &mut [u32], to: usize)
        requires { to + units.layout.width ≤ length dst.old }
        ensures { dst.new ≡ units.layout.write dst.old to (value self) };

    fn multiply(self, rhs: Self) -> Self
        requires { Factors units (value self) (value rhs) }
        ensures { value result ≡ units.mul (value self) (value rhs) };

    ghost constants: { ElementLaws units WIDTH MULTIPLICATIONS };

    // How many elements a column has.
    final fn count(column: &[u32]) -> usize
        ensures { result ≡ size units column.now }
    {
        column.len() / Self::WIDTH
    }

    // Element k of a column.
    final fn get(column: &[u32], k: usize) -> Self
        requires { k < size units column.now }
        ensures { value result ≡ at units column.now k }
    {
        Self::load(column, k * Self::WIDTH)
    }

    // Becomes element k of a column.
    final fn put(self, dst: &mut [u32], k: usize)
        requires { k < size units dst.old }
        ensures { dst.new ≡ units.layout.write dst.old (k * units.layout.width) (value self) }
    {
        self.store(dst, k * Self::WIDTH);
    }
}

// A field whose elements lie in columns.
pub trait Column: Field + Element {
    ghost column: { ColumnField };

    // Whether one look at all words shows that every element can be inverted. Where it doesn't, the column is searched.
    fn all_invertible(words: &[u32]) -> bool
        ensures { result ≡ true → outcome (invertible column words.now) ≡ Ok tt }
    {
        false
    }

    ghost laws: { ColumnLaws Self.units Self.value column Self.field };
}
