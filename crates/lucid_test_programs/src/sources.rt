//! Sources that rows of several crates speak of.

/// Numbers that go on behind truths.
pub const ADVANCE: &str = "x upon p where x = 0 fby x + 1; p = true fby false fby p; end";

/// 0, 1, 2, ..
pub const COUNTING: &str = "x where x = 0 fby x + 1; end";

/// A name that is itself through a tree that is 30 deep, which has no value.
pub const DEEP_TREE: &str =
    "x where x = not not not not not not not not not not not not not not not not not not not not not not not not not not not not not x; end";

/// A text that doubles at each time, and is too heavy from time 16 on.
pub const DOUBLING_TEXT: &str = "x where x = `a' fby x ^ x; end";

/// The factorials by recursion.
pub const FACTORIAL: &str =
    "fact(n) where fact(n) = if n eq 0 then 1 else n * fact(n - 1) fi; n = 0 fby n + 1; end";

/// A right side that isn't looked at.
pub const FALSE_AND: &str = "false and x where x = x; end";

/// Two names that need each other.
pub const FIBONACCI: &str = "f where f = 0 fby g; g = 1 fby f + g; end";

/// A list that gets an item more at each time.
pub const GROWING_LIST: &str = "x where x = [] fby i :: x; i = 0 fby i + 1; end";

/// The value at the last time, which is 2.
pub const LAST_TIME: &str = "(1 fby 2) attime 9223372036854775807";

/// A search that ends at once at each time.
pub const LONG_ADVANCE: &str = "x upon true where x = 0 fby x + 1; end";

/// The made program of greatest number 2, in one line.
pub const MADE_NAMES: &str =
    "v2 where v0 = 1 fby (v0 + 1) mod 1000; v1 = v0 fby (v1 + v0) mod 1000; v2 = v1 fby (v2 + v1) mod 1000; end";

/// A current name of a current name: each time enters two contexts.
pub const NESTED_CURRENT: &str =
    "m where m is current n; end where n is current k; end where k = 0 fby k + 1; end";

/// The factorials by a block that goes on from 0 at each outer time.
pub const NESTED_ITERATION: &str =
    "f asa i eq n where n is current k; i = 0 fby i + 1; f = 1 fby f * (i + 1); end where k = 0 fby k + 1; end";

/// A name that is itself, which has no value.
pub const NO_VALUE: &str = "x where x = x; end";

/// The sums of the elements of `a` so far.
pub const RUNNING_SUM: &str = "s where s = a fby s + next a; end";

/// The total and the largest of the elements of `sale` so far.
pub const SALES: &str =
    "total :: largest :: [] where total = sale fby total + next sale; largest = sale fby if next sale > largest then next sale else largest fi; end";

/// A search without end, which has no value.
pub const SEARCH_WITHOUT_END: &str = "1 asa false";

/// The numbers that 3 divides.
pub const THIRDS: &str = "n whenever n mod 3 eq 0 where n = 0 fby n + 1; end";

/// A stream beside two further names, of which `c` ends early.
pub const THREE_NAMES: &str = "a where a = 1 fby a + 1; b = a * a; c = 5 fby eod; end";

/// Two calls of one function.
pub const TWO_SUMS: &str =
    "sum(x) + sum(y) where sum(z) = s where s = z fby s + next z; end; x = 1 fby x + 1; y = 10; end";

/// A name at falling times, and past them.
pub const VALUE_AT_A_TIME: &str = "x attime 3 - x where x = 0 fby x + 1; end";
