// A ring of eight places: what is pushed goes over the oldest, and nothing is shifted.
ghost use Rattle.std.specs.Prelude.{◌≡◌, ◌<◌, ◌≤◌, [], ◌∷◌, take, drop};
ghost use Rattle.std.specs.List.{slice_get};

use interface::limits::MOST_LISTED;

// How many places a ring has: one less than the states that a keeper lists, since the newest lies beside it.
const PLACES: usize = MOST_LISTED - 1;

// The places lie in an array, since the engine has no heap. Clauses speak of the list of what is held, `items`, newest first. The ring is
// seen as its fields, and not as that list alone: a refusal leaves a keeper as the value it was, with the places past the list too.
#[derive(Drop)]
pub struct Ring<T> {
    places: [T; PLACES],
    // The place of the newest, if there is one.
    newest: usize,
    count: usize,
    ghost inside: { newest < 8 },
    ghost few: { count ≤ 8 },
}

impl<T: Copy> Ring<T> {
    ghost use Rattle.keepers.specs.Rings.{items};

    // A ring that holds nothing. Its places are filled with any value.
    pub fn new(filler: T) -> Self
        ensures { items result ≡ [] }
    {
        Ring {
            places: [filler; PLACES],
            newest: 0,
            count: 0,
        }
    }

    // The k-th, counted from the newest, or nothing past the oldest.
    pub fn get(&self, k: u32) -> Option<T>
        ensures { result ≡ slice_get (items self.now) k }
    {
        let k = k as usize;
        if k >= self.count {
            return None;
        }
        Some(self.places[(self.newest + k) % PLACES])
    }

    // One more in front; of nine the oldest goes.
    pub fn push(&mut self, value: T)
        ensures { items self.new ≡ take 8 (value ∷ items self.old) }
    {
        self.newest = (self.newest + PLACES - 1) % PLACES;
        self.count = (self.count + 1).min(PLACES);
        self.places[self.newest] = value;
    }

    // Lets the n newest go, or all.
    pub fn drop_newest(&mut self, n: u32)
        ensures { items self.new ≡ drop n (items self.old) }
    {
        let gone = (n as usize).min(self.count);
        self.newest = (self.newest + gone) % PLACES;
        self.count -= gone;
    }
}
