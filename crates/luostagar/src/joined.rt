// Eight banks as one.
ghost use Rattle.std.specs.Prelude.{◌≡◌};
ghost use Rattle.std.specs.List.{AllByRecursion};
ghost use Rattle.bank.specs.Shapes.{beside};
ghost use Rattle.layout.specs.Eights.{in_order};

use bank::{Bank, Plain};
use layout::Eight;
use pair::Pair;

type Four<T> = Pair<Pair<T, T>, Pair<T, T>>;

// The banks side by side, in their order. Where all of them stand, the whole does.
pub fn joined<T: Plain>(banks: Eight<T>) -> Pair<Four<T>, Four<T>>
    ensures means { ⟦<Pair<Four<T>, Four<T>> as Bank>⟧.meaning result ≡ beside (beside (beside (T.Bank.meaning banks.a) (T.Bank.meaning banks.b)) (beside (T.Bank.meaning banks.c) (T.Bank.meaning banks.d))) (beside (beside (T.Bank.meaning banks.e) (T.Bank.meaning banks.f)) (beside (T.Bank.meaning banks.g) (T.Bank.meaning banks.h))) }
    ensures stands { AllByRecursion T.Bank.stands (in_order banks) → ⟦<Pair<Four<T>, Four<T>> as Bank>⟧.stands result }
{
    let Eight {
        a,
        b,
        c,
        d,
        e,
        f,
        g,
        h,
    } = banks;
    let first = Pair::new(Pair::new(a, b), Pair::new(c, d));
    let last = Pair::new(Pair::new(e, f), Pair::new(g, h));
    Pair::new(first, last)
}
