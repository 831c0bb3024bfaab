// Eight of a kind, in their order.

// An array would say it in a word, and was tried: the checker's borrow rules cover no array of enums that hold a `&mut`, as slots do.
#[derive(Drop)]
pub struct Eight<T> {
    pub a: T,
    pub b: T,
    pub c: T,
    pub d: T,
    pub e: T,
    pub f: T,
    pub g: T,
    pub h: T,
}
