// The items as a list.
ghost use Rattle.std.specs.Prelude.{◌≡◌, [], ◌∷◌, ◌++◌, length, take, if◌then◌else◌, nat_lt, Ok, Err};
ghost use Rattle.few.specs.Views.{listed};

use crate::Few;

impl<T: Copy, const N: usize> Few<T, N> {
    // No items; the room for them holds blanks.
    pub fn empty(blank: T) -> Few<T, N>
        ensures { listed result ≡ [] }
    {
        Few {
            each: [blank; N],
            count: 0,
        }
    }

    pub fn as_slice(&self) -> &[T]
        ensures { result.now ≡ listed self.now }
    {
        &self.each[..self.count]
    }

    pub fn len(&self) -> usize
        ensures { result ≡ length (listed self.now) }
    {
        self.count
    }

    // Puts one more item at the end, or hands it back where there is no room.
    pub fn push(&mut self, item: T) -> Result<(), T>
        ensures answer { result ≡ (if nat_lt (length (listed self.old)) N then Ok tt else Err item) }
        ensures after { listed self.new ≡ (if nat_lt (length (listed self.old)) N then listed self.old ++ (item ∷ []) else listed self.old) }
    {
        if self.count == N {
            return Err(item);
        }
        self.each[self.count] = item;
        self.count += 1;
        Ok(())
    }

    // Puts more items at the end; those that find no room are left out.
    pub fn extend_from_slice(&mut self, more: &[T])
        ensures { listed self.new ≡ take N (listed self.old ++ more.now) }
    {
        let part = more.len().min(N - self.count);
        let end = self.count + part;
        let each = &mut self.each[..];
        each[self.count..end].copy_from_slice(&more[..part]);
        self.count = end;
    }
}

impl<T: Copy + Default, const N: usize> Few<T, N> {
    // The items given, or the first N of them.
    pub fn of(items: &[T]) -> Few<T, N>
        ensures { listed result ≡ take N items.now }
    {
        let mut few = Few::empty(T::default());
        few.extend_from_slice(items);
        few
    }
}
