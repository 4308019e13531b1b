// The smallest and the largest of the whole numbers in a part of a file. The width and the order are const parameters, so that each pair of them has a loop of
// its own, and a wide one: numbers of two bytes are kept in 16 bits. Two parts as long as each other are gone through side by side, since memory brings both in
// the time of one.
ghost use Rattle.std.specs.Prelude.{◌≡◌, ◌*◌, [], ◌∷◌, ℤ};
ghost use Rattle.words.specs.Numbers.{number_at};
ghost use Rattle.words.specs.Values.{signed};
ghost use Rattle.decode.specs.Wide.{order_for, NumberAt};
ghost use Rattle.overview.specs.Overview.{lower, higher};
ghost use Rattle.overview.specs.Steps.{NumbersOf, ExtremesAre, PairOf, PairAre, both_of, widened, extremes_of, meant_by};

use decode::{long_at, short_at};
use words::Order;

// The smallest and the largest number.
#[derive(Clone, Copy)]
pub struct Extremes {
    pub smallest: i32,
    pub largest: i32,
}

// A number as a loop keeps it: by its own type's methods, since bodies shared over `Ord` would want a law of the order from each type, which is no plainer.
trait Kept: Copy {
    ghost means: { Self → ℤ };

    fn lower(self, other: Self) -> Self
        ensures { means result ≡ lower (means self) (means other) };

    fn higher(self, other: Self) -> Self
        ensures { means result ≡ higher (means self) (means other) };

    fn long(self) -> i32
        ensures { result ≡ means self };
}

impl Kept for i16 {
    ghost means = { λ z. z };

    fn lower(self, other: i16) -> i16 {
        self.min(other)
    }

    fn higher(self, other: i16) -> i16 {
        self.max(other)
    }

    fn long(self) -> i32 {
        i32::from(self)
    }
}

impl Kept for i32 {
    ghost means = { λ z. z };

    fn lower(self, other: i32) -> i32 {
        self.min(other)
    }

    fn higher(self, other: i32) -> i32 {
        self.max(other)
    }

    fn long(self) -> i32 {
        self
    }
}

// One that is read from W bytes.
trait Number<const W: usize>: Kept {
    fn read(big: bool, s: &[u8], at: usize) -> Self
        requires { NumberAt W s.now at }
        ensures { Self.means result ≡ signed W (number_at (order_for big) W s.now at) };
}

impl Number<2> for i16 {
    fn read(big: bool, s: &[u8], at: usize) -> i16 {
        short_at(big, s, at)
    }
}

impl<const W: usize> Number<W> for i32 {
    fn read(big: bool, s: &[u8], at: usize) -> i32 {
        long_at(big, W, s, at)
    }
}

// The smallest and the largest of the numbers read so far.
#[derive(Clone, Copy)]
struct Bounds<T> {
    smallest: T,
    largest: T,
}

#[tactic(auto, unfolding(crate::specs::Overview::foremost))]
impl<T: Kept> Bounds<T> {
    fn of(n: T) -> Bounds<T>
        ensures { meant_by T.means result ≡ extremes_of (T.means n ∷ []) }
    {
        Bounds {
            smallest: n,
            largest: n,
        }
    }

    fn and(self, n: T) -> Bounds<T>
        ensures { meant_by T.means result ≡ widened (meant_by T.means self) (T.means n ∷ []) }
    {
        Bounds {
            smallest: self.smallest.lower(n),
            largest: self.largest.higher(n),
        }
    }

    fn long(self) -> Extremes
        ensures { result ≡ meant_by T.means self }
    {
        Extremes {
            smallest: self.smallest.long(),
            largest: self.largest.long(),
        }
    }
}

// The number behind i others, in a function that knows its order and uses it once: there the compiler makes one load of its bytes.
fn nth<const W: usize, T: Number<W>, const BIG: bool>(s: &[u8], i: usize) -> T
    requires { NumberAt W s.now (i * W) }
    ensures { T.means result ≡ signed W (number_at (order_for BIG) W s.now (i * W)) }
{
    T::read(BIG, s, i * W)
}

// Of numbers of W bytes, one or more.
fn of_numbers<const W: usize, T: Number<W>, const BIG: bool>(s: &[u8]) -> Extremes
    requires { NumbersOf W s.now }
    ensures { ExtremesAre (order_for BIG) W s.now result }
{
    let mut x = Bounds::of(nth::<W, T, BIG>(s, 0));
    for i in 1..s.len() / W {
        x = x.and(nth::<W, T, BIG>(s, i));
    }
    x.long()
}

// By the width.
fn of_width<const BIG: bool>(width: usize, s: &[u8]) -> Extremes
    requires { NumbersOf width s.now }
    ensures { ExtremesAre (order_for BIG) width s.now result }
{
    match width {
        2 => of_numbers::<2, i16, BIG>(s),
        3 => of_numbers::<3, i32, BIG>(s),
        _ => of_numbers::<4, i32, BIG>(s),
    }
}

// Of the numbers of this width in a part of a file.
pub fn of_part(o: Order, width: usize, s: &[u8]) -> Extremes
    requires { NumbersOf width s.now }
    ensures { ExtremesAre o width s.now result }
{
    match o {
        Order::Little => of_width::<false>(width, s),
        Order::Big => of_width::<true>(width, s),
    }
}

// Of one part and another.
pub fn of_both(x: Extremes, y: Extremes) -> Extremes
    ensures { result ≡ both_of x y }
{
    Extremes {
        smallest: x.smallest.min(y.smallest),
        largest: x.largest.max(y.largest),
    }
}

// Of two parts of numbers of W bytes, which one after the other take 1.3 times as long in frames of a second.
fn pair_of_numbers<const W: usize, T: Number<W>, const BIG: bool>(s: &[u8], t: &[u8]) -> Extremes
    requires { PairOf W s.now t.now }
    ensures { PairAre (order_for BIG) W s.now t.now result }
{
    let mut x = Bounds::of(nth::<W, T, BIG>(s, 0));
    let mut y = Bounds::of(nth::<W, T, BIG>(t, 0));
    for i in 1..s.len() / W {
        x = x.and(nth::<W, T, BIG>(s, i));
        y = y.and(nth::<W, T, BIG>(t, i));
    }
    of_both(x.long(), y.long())
}

// By the width, as for one part: no closure is generic in the width, so the two loops can't share this.
fn pair_of_width<const BIG: bool>(width: usize, s: &[u8], t: &[u8]) -> Extremes
    requires { PairOf width s.now t.now }
    ensures { PairAre (order_for BIG) width s.now t.now result }
{
    match width {
        2 => pair_of_numbers::<2, i16, BIG>(s, t),
        3 => pair_of_numbers::<3, i32, BIG>(s, t),
        _ => pair_of_numbers::<4, i32, BIG>(s, t),
    }
}

// Of the numbers of this width in two parts of a file.
pub fn of_pair(o: Order, width: usize, s: &[u8], t: &[u8]) -> Extremes
    requires { PairOf width s.now t.now }
    ensures { PairAre o width s.now t.now result }
{
    match o {
        Order::Little => pair_of_width::<false>(width, s, t),
        Order::Big => pair_of_width::<true>(width, s, t),
    }
}
