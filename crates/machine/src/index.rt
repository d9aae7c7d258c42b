// Pairs of numbers, in the order in which they were put, found again by a hash: the places of one bucket are a chain whose links fall, so a
// search ends where its cursor does. Bucket b's chain begins at heads[b] and goes on from place p at nexts[p]. A link is one more than a place,
// or 0 where the chain ends.
ghost use Rattle.std.specs.Prelude.{◌+◌, ◌*◌, ◌<◌, ◌≡◌, length};
ghost use Rattle.machine.specs.inner.Index.{bucket_of, capacity, pair_at, Linked, FoundAt, Pushed, PlaceOf};

#[derive(Drop)]
pub(crate) struct Index {
    pairs: [(u64, u64); 4096],
    heads: [u16; 4096],
    nexts: [u16; 4096],
    pub(crate) count: usize,
}

fn bucket(need: u64, low: u64) -> usize
    ensures { (result ≡ bucket_of need low) × (result < capacity) }
{
    ((need % 65521 + low % 65537 * 3) % 4096) as usize
}

impl Index {
    // No pairs.
    pub(crate) fn new() -> Self
        ensures { Linked result × (result.count ≡ 0) }
    {
        Index {
            pairs: [(0, 0); 4096],
            heads: [0; 4096],
            nexts: [0; 4096],
            count: 0,
        }
    }

    // The pair at a place.
    pub(crate) fn pair(&self, place: usize) -> (u64, u64)
        requires { place < capacity }
        ensures { result ≡ pair_at self.now.pairs place }
    {
        self.pairs[place]
    }

    fn find(&self, need: u64, low: u64) -> Option<usize>
        requires { Linked self.now }
        ensures { FoundAt self.now need low result }
    {
        let mut cursor = usize::from(self.heads[bucket(need, low)]);
        // Down the chain, whose links fall.
        while cursor != 0 {
            let place = cursor - 1;
            if self.pair(place) == (need, low) {
                return Some(place);
            }
            cursor = usize::from(self.nexts[place]);
        }
        None
    }

    // Puts a pair at the next place.
    fn push(&mut self, need: u64, low: u64)
        requires { Linked self.old × (self.old.count < capacity) }
        ensures { Pushed self.old need low self.new }
    {
        let b = bucket(need, low);
        self.pairs[self.count] = (need, low);
        self.nexts[self.count] = self.heads[b];
        self.count += 1;
        self.heads[b] = self.count as u16;
    }

    // The place of a pair, which is put at the next place where it stands nowhere yet; none where there is no room for it.
    pub(crate) fn place(&mut self, need: u64, low: u64) -> Option<usize>
        requires { Linked self.old }
        ensures { PlaceOf self.old need low self.new result }
    {
        if let Some(p) = self.find(need, low) {
            return Some(p);
        }
        if self.count == 4096 {
            return None;
        }
        self.push(need, low);
        Some(self.count - 1)
    }

    // Takes every pair out.
    pub(crate) fn clear(&mut self)
        ensures { Linked self.new × (self.new.count ≡ 0) }
    {
        self.heads.fill(0);
        self.count = 0;
    }
}
