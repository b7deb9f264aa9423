// A list of fixed capacity: a count beside a fixed row of slots (Arr of book.rs of the Rust), for every kind of entry and every capacity.
#![tactic(auto)]

ghost use Rattle.std.specs.Prelude.{◌≡◌};
ghost use Rattle.lists.specs.Lists.{empty, live, put_at, pushed, put_of, stored_of, taken_at, popped, taken_of, entry_at, store_at, emptied};

// An entry of a list. A slot that an entry has left becomes blank.
// Beside std's `Default`, which says by a predicate what it may answer: a contract here has to name the one value.
pub trait Blank: Copy {
    ghost blank: { Self };

    fn blank() -> Self
        ensures { result ≡ blank };
}

// Why an entry did not go in: there is no room, or no such place. It is not printed: the kernel makes a halt of it.
#[derive(Clone, Copy, Debug, PartialEq, Eq)]
pub struct Full;

// What an insertion or a removal answers, and to how many slots it stored: 0 where it did nothing.
#[derive(Clone, Copy, Debug, PartialEq, Eq)]
pub struct Counted<R> {
    pub answer: R,
    pub stores: usize,
}

// An array and its count, as a rule of the project has it: the slots behind the count are part of the state too.
#[derive(Clone, Copy)]
pub struct Arr<T, const N: usize> {
    pub slots: [T; N],
    pub count: usize,
}

// No entry.
impl<T: Blank, const N: usize> Default for Arr<T, N> {
    ghost is_default = { λ list. list ≡ empty N T.blank };

    fn default() -> Self {
        Arr::new()
    }
}

impl<T: Blank, const N: usize> Arr<T, N> {
    pub fn new() -> Self
        ensures { result ≡ empty N T.blank }
    {
        Arr {
            slots: [T::blank(); N],
            count: 0,
        }
    }

    // The live entries: none where the count is above the capacity.
    pub fn as_slice(&self) -> &[T]
        ensures { result.now ≡ live N self.now }
    {
        self.slots.get(..self.count).unwrap_or_default()
    }

    pub fn get(&self, at: usize) -> Option<T>
        ensures { result ≡ entry_at N T.blank at self.now }
    {
        self.as_slice().get(at).copied()
    }

    // Each entry from the place on moves one slot up: it is carried to its new slot by the one before it.
    // By places, as a rule of the project has it: each entry shifts by one store, and each store is counted where it is made; `copy_within` and `rotate_right` leave none to count.
    pub fn insert(&mut self, at: usize, value: T) -> Counted<Result<(), Full>>
        ensures { put_of result self.new ≡ put_at N at value self.old }
    {
        let count = self.count;
        let mut stores = 0;
        if count >= N || at > count {
            return Counted {
                answer: Err(Full),
                stores,
            };
        }
        let mut carry = value;
        for i in at..count + 1 {
            let held = self.slots[i];
            self.slots[i] = carry;
            stores += 1;
            carry = held;
        }
        self.count = count + 1;
        Counted {
            answer: Ok(()),
            stores,
        }
    }

    pub fn push(&mut self, value: T) -> Counted<Result<(), Full>>
        ensures { put_of result self.new ≡ pushed N value self.old }
    {
        self.insert(self.count, value)
    }

    // Each entry behind the place moves one slot down, and the last live slot becomes blank: by places, as in `insert`.
    pub fn remove(&mut self, at: usize) -> Counted<Option<T>>
        ensures { taken_of result self.new ≡ taken_at N T.blank at self.old }
    {
        let mut stores = 0;
        let Some(got) = self.get(at) else {
            return Counted {
                answer: None,
                stores,
            };
        };
        let last = self.count - 1;
        for i in at..last {
            self.slots[i] = self.slots[i + 1];
            stores += 1;
        }
        self.slots[last] = T::blank();
        stores += 1; // the blank too
        self.count = last;
        Counted {
            answer: Some(got),
            stores,
        }
    }

    pub fn pop_front(&mut self) -> Counted<Option<T>>
        ensures { taken_of result self.new ≡ popped N T.blank self.old }
    {
        self.remove(0)
    }

    // The live entry at a place becomes another.
    pub fn store(&mut self, at: usize, value: T) -> Result<(), Full>
        ensures { stored_of result self.new ≡ store_at N at value self.old }
    {
        if self.count > N || at >= self.count {
            return Err(Full);
        }
        self.slots[at] = value;
        Ok(())
    }

    pub fn clear(&mut self)
        ensures { self.new ≡ emptied N T.blank self.old }
    {
        if self.count > N {
            return;
        }
        // no `fill`: it asks that a copy cannot fail, which `T: Copy` does not say
        for slot in &mut self.slots[..self.count] {
            *slot = T::blank();
        }
        self.count = 0;
    }
}
