// The arguments of a call, taken one after the other.
ghost use Rattle.std.specs.Prelude.{◌≤◌};

/// The numbers that are not taken yet.
#[derive(Drop)]
pub struct Arguments<'a> {
    rest: &'a [i128],
}

impl<'a> Arguments<'a> {
    pub fn new(numbers: &'a [i128]) -> Arguments<'a> {
        Arguments { rest: numbers }
    }

    /// The next numbers, so many.
    pub fn numbers(&mut self, count: usize) -> Option<&'a [i128]> {
        let (numbers, rest) = self.rest.split_at_checked(count)?;
        self.rest = rest;
        Some(numbers)
    }

    /// The next numbers as arguments of a type, where it has them. The bound keeps the size of the array below that of memory.
    pub fn take<T: TryFrom<i128> + Copy + Default, const N: usize>(&mut self) -> Option<[T; N]>
    where
        <T as TryFrom<i128>>::Error: Drop,
        requires { N ≤ 8 }
    {
        let numbers = self.numbers(N)?;
        let mut arguments = [T::default(); N];
        for (argument, number) in arguments.iter_mut().zip(numbers) {
            *argument = T::try_from(*number).ok()?;
        }
        Some(arguments)
    }

    /// The next numbers as a coset: the index and the point that it begins with, those of its step, and its log size.
    pub fn take_coset(&mut self) -> Option<(u64, u32, u32, u64, u32, u32, u32)> {
        let [initial_index] = self.take::<u64, 1>()?;
        let [initial_x, initial_y] = self.take::<u32, 2>()?;
        let [step_index] = self.take::<u64, 1>()?;
        let [step_x, step_y, log_size] = self.take::<u32, 3>()?;
        Some((
            initial_index,
            initial_x,
            initial_y,
            step_index,
            step_x,
            step_y,
            log_size,
        ))
    }

    /// Passes where all were taken.
    pub fn end(&self) -> Option<()> {
        self.rest.is_empty().then_some(())
    }
}
