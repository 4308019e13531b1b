// Runs of numbers, reserve areas and the letter of an order, written anew.
ghost use Rattle.std.specs.Prelude.{◌≡◌, [], ◌∷◌, ℕ, length};
ghost use Rattle.words.specs.declared.Order.TheVariants.{Little};
ghost use Rattle.bulk.specs.Runs.{NumbersPart};
ghost use Rattle.walk.specs.Walk.{laid, Letter, reserve};
ghost use Rattle.rules.specs.Rules as R;
ghost use Rattle.bodies.specs.Copy.{copy};
ghost use Rattle.bodies.specs.Orders.{same_order};

use crate::Way;
use bulk::{clear_run, copy_run, turn_run};
use words::Order;

// The two orders are one.
pub fn same_order(a: Order, b: Order) -> bool
    ensures { result ≡ same_order a b }
{
    match a {
        Order::Little => is_little(b),
        Order::Big => !is_little(b),
    }
}

fn is_little(a: Order) -> bool
    ensures { result ≡ same_order a Little }
{
    match a {
        Order::Little => true,
        Order::Big => false,
    }
}

// The letter of an order.
pub fn letter(o: Order) -> u8
    ensures { laid o Letter (76 ∷ []) ≡ result ∷ [] }
{
    match o {
        Order::Little => 76,
        Order::Big => 66,
    }
}

// A run of n numbers of a width.
pub fn numbers(w: Way, width: usize, n: usize, s: &[u8], d: &mut [u8])
    requires { NumbersPart width n s.now d.old }
    ensures { (b : ℕ) → d.new ≡ copy w b s.now b (R.number_list width n) }
{
    if same_order(w.from, w.to) {
        copy_run(s, d);
    } else {
        turn_run(width, n, s, d);
    }
}

// A reserve area.
pub fn reserved(w: Way, s: &[u8], d: &mut [u8])
    requires { length d.old ≡ length s.now }
    ensures { (b : ℕ) → d.new ≡ copy w b s.now b (reserve (length s.now)) }
{
    if w.keep {
        copy_run(s, d);
    } else {
        clear_run(d);
    }
}
