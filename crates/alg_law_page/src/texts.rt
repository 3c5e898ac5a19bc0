// The lines before the tables.
pub(crate) const HEAD: [&str; 10] = [
    "# Laws",
    "",
    "An instance of a law takes a sort that the law allows and a tree for each of its letters. Where its premises are derivable, so is its conclusion.",
    "",
    "The letters `a`, `b`, `c`, `d` stand for trees of the sort, `m` and `n` for trees of ℕ, `i` and `j` for trees of ℤ. The letters of a law are those of its premises and conclusion together, in the order a, b, c, d, m, n, i, j.",
    "",
    "Under \"Sort\" stand the classes that the sort must have; \"any\" asks for none, and \"ℕ\" says that the sort is ℕ. Most names are Mathlib's; a `0` at the end tells the law of a field from that of a group, `_ord` that of an ordered ring from that of a field.",
    "",
    "The table is `law_table` of `crates/alg_law/specs/Laws.antt`. The code has it as data, `laws()` of `alg_law`, proved to be the same rows, and finds each by its name in a `LawIndex`. There are 87.",
    "",
];

// The headings of the groups of laws.
pub(crate) const GROUPS: [&str; 11] = [
    "Sums",
    "Multiples",
    "Products, inverses, quotients",
    "Powers",
    "Semirings",
    "Fields",
    "What is unequal",
    "Order",
    "The lesser and the greater of two",
    "Ordered semirings and rings",
    "Absolute values, inverses in order, natural numbers",
];

// The lines behind the tables.
pub(crate) const TAIL: [&str; 26] = [
    "## Literals",
    "",
    "These laws stand beside the table. A literal may be any natural number.",
    "",
    "| Law | Sort |",
    "|---|---|",
    "| the literal n + 1 equals the literal n plus the literal 1 | Semiring |",
    "| two different literals are unequal | CharZero |",
    "| `n • a = n * a`, for a literal n of ℕ on the left and of the sort on the right | Semiring |",
    "| `n • a` with the literal n of ℤ equals `n • a` with n of ℕ | AddGroup |",
    "| `a ^ n` with the literal n of ℤ equals `a ^ n` with n of ℕ | Group or Field |",
    "| a function below, at numerals, equals the numeral of its value | ℕ or ℤ |",
    "| `x ∣ y` between numerals, where x divides y | ℕ or ℤ |",
    "",
    "A numeral of ℕ is a literal. A numeral of ℤ is a literal, or the negation of one where it is below 0.",
    "",
    "| Function | Lean's name | Value |",
    "|---|---|---|",
    "| `a - b` on ℕ | Nat.sub | 0 where b is greater than a |",
    "| `a / b`, `a % b` on ℕ | Nat.div, Nat.mod | rounded down; `a / 0 = 0`, `a % 0 = a` |",
    "| `a / b`, `a % b` on ℤ | Int.ediv, Int.emod | the q and r with a = b * q + r, r at least 0 and below the absolute value of b; `a / 0 = 0`, `a % 0 = a` |",
    "| `Nat.gcd a b` | Nat.gcd | the common divisor that every common divisor divides; 0 for 0 and 0 |",
    "| `Nat.lcm a b` | Nat.lcm | the common multiple that divides every common multiple |",
    "| `Nat.factorial a` | Nat.factorial | 1 for 0 |",
    "| `Nat.choose a b` | Nat.choose | how many sets of b out of a things there are; 0 where b is greater than a |",
    "| `Nat.fib a` | Nat.fib | 0, 1, then each the sum of the two before it |",
];

// The lines before the lemmas.
pub(crate) const LEMMAS_HEAD: [&str; 4] = [
    "",
    "# Lemmas",
    "",
    "A lemma is used as a law is. Each follows from the laws: the code has its proof lines beside it, `lemmas()` of `alg_lemma`, and it is proved that they lead from its premises to its conclusion at every sort that it allows. The rows are `lemma_table` of `crates/alg_lemma/specs/Lemmas.antt`. There are 210.",
];

// The headings of the groups of lemmas.
pub(crate) const LEMMA_GROUPS: [&str; 27] = [
    "First lemmas",
    "Another order",
    "Negations",
    "Signs, and powers step by step",
    "Inverses in a field",
    "Quotients in a field",
    "Sums of fractions",
    "Products of fractions",
    "Powers of fractions",
    "What is unequal",
    "Order",
    "Sums with a product by a power",
    "Sums of two products by powers",
    "Products and negations of products by powers",
    "Sorted sums and monomials",
    "Terms as they are written",
    "Equations from differences",
    "Multiples",
    "Sums of multiples",
    "Products of powers in a group",
    "What is positive",
    "Factors of quotients and inverses",
    "Literals that change places",
    "Equations and inequalities together",
    "Inequalities from what is left over",
    "Exponents that are sums and products",
    "Powers by integers in a group",
];
