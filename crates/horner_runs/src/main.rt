// Runs the forms of alg_horner. Each line of the input is `deep HEIGHT`, `whole ATOMS POWER`, `fraction ATOMS POWER`,
// `square ATOMS POWER` or `sixths`. Heights are at most 20,000, atoms 1,000: forms are walked by recursion.
#![tactic(auto)]

ghost use Rattle.std.specs.Prelude.{ℕ, ◌≤◌, ◌+◌, ◌<◌, ◌^◌, IfOk, max, unsigned_abs};
ghost use Rattle.alg_sums.specs.Size.{size_of};
ghost use Rattle.alg_horner.specs.FractionMeaning.{ratio_at};
ghost use Rattle.alg_sums.specs.Rational.{rational};
ghost use Rattle.alg_horner.specs.Form.{exponent, size};

use alg_horner::{Coeff, Horner};
use alg_num::Frac;
use std::alloc::{AllocError, Global};
use std::io;

/// A form that is as high as that: x^height + .. + x + 1.
fn tall(alloc: Global, height: u32) -> Result<Horner<i128>, AllocError>
    requires { height ≤ 2 ^ 20 }
    ensures size { IfOk result (λ h. size rational 1 h ≤ height + 1) }
    ensures exponents { IfOk result (λ h. (n : ℕ) → exponent n h ≤ height) }
{
    let mut form = Horner::constant(alloc, 1)?;
    for _i in 0..height {
        let one = Horner::constant(alloc, 1)?;
        form = Horner::join(alloc, form, 1, one)?;
    }
    Ok(form)
}

/// The sum of the first atoms, from the first or from the last on.
fn sum_of_atoms<C: Coeff>(
    alloc: Global,
    count: u32,
    from_last: bool,
) -> Result<Horner<C>, AllocError>
    requires { count ≤ 2 ^ 20 }
    ensures size { IfOk result (λ h. size rational 1 h ≤ count) }
    ensures exponents { IfOk result (λ h. (n : ℕ) → exponent n h ≤ 1) }
{
    let mut form = Horner::constant(alloc, C::zero())?;
    for i in 0..count {
        let number = if from_last { count - 1 - i } else { i };
        form = with_atom(alloc, form, number)?;
    }
    Ok(form)
}

/// The form and one atom more.
fn with_atom<C: Coeff>(alloc: Global, form: Horner<C>, number: u32) -> Result<Horner<C>, AllocError>
    requires { size rational 1 form ≤ 2 ^ 20 }
    ensures size { IfOk result (λ h. size rational 1 h ≤ size rational 1 form + 1) }
    ensures exponents { IfOk result (λ h. (n : ℕ) → exponent n h ≤ max (exponent n form) 1) }
{
    let atom = Horner::atom(alloc, number)?;
    let sum = form.add(alloc, &atom)?;
    Ok(sum)
}

fn raised<C: Coeff>(alloc: Global, form: &Horner<C>, power: u32) -> Result<Horner<C>, AllocError>
    requires small { size rational 1 form.now ≤ 2 ^ 20 }
    requires size { size rational 1 form.now ^ power ≤ 2 ^ 126 }
    requires exponents { (n : ℕ) → exponent n form.now ≤ 1 }
    ensures size { IfOk result (λ h. size rational 1 h ≤ size rational 1 form.now ^ power) }
    ensures exponents { IfOk result (λ h. (n : ℕ) → exponent n h ≤ power) }
{
    let power = form.pow(alloc, u128::from(power))?;
    Ok(power)
}

/// The number of terms of the power of the sum of the atoms, and whether it is the same from either end.
fn power<C: Coeff>(alloc: Global, count: u32, times: u32) -> Result<(usize, bool), AllocError>
    requires small { count ≤ 2 ^ 20 }
    requires size { count ^ times ≤ 2 ^ 126 }
{
    let form = sum_of_atoms::<C>(alloc, count, false)?;
    let first = raised(alloc, &form, times)?;
    let other = sum_of_atoms::<C>(alloc, count, true)?;
    let second = raised(alloc, &other, times)?;
    Ok((first.terms(), first.same(&second)))
}

fn say_power<C: Coeff>(alloc: Global, rt: &HostRuntime, count: u32, times: u32) -> io::Result<()> {
    let count = count.min(1_000);
    match u128::from(count).checked_pow(times) {
        Some(size) => {
            if size > 1 << 126 {
                return println!(rt; "too great");
            }
            let (terms, same) = power::<C>(alloc, count, times)?;
            println!(rt; "{terms} terms, the same from either end: {same}")
        }
        None => println!(rt; "too great"),
    }
}

/// The power of the sum of the atoms.
fn root(alloc: Global, count: u32, times: u32, from_last: bool) -> Result<Horner<i128>, AllocError>
    requires small { count ≤ 2 ^ 20 }
    requires times { times ≤ 2 ^ 20 }
    requires size { count ^ times ≤ 2 ^ 21 }
    ensures size { IfOk result (λ h. size rational 1 h ≤ 2 ^ 21) }
    ensures exponents { IfOk result (λ h. (n : ℕ) → exponent n h ≤ 2 ^ 20) }
{
    let form = sum_of_atoms::<i128>(alloc, count, from_last)?;
    let power = raised(alloc, &form, times)?;
    Ok(power)
}

/// The number of terms of the square of that power, and whether it is the same in either order.
fn square(alloc: Global, count: u32, times: u32) -> Result<(usize, bool), AllocError>
    requires small { count ≤ 2 ^ 20 }
    requires times { times ≤ 2 ^ 20 }
    requires size { count ^ times ≤ 2 ^ 21 }
{
    let first = root(alloc, count, times, false)?;
    let second = root(alloc, count, times, true)?;
    let square = product(alloc, &first, &second)?;
    let turned = product(alloc, &second, &first)?;
    Ok((square.terms(), square.same(&turned)))
}

fn say_square(alloc: Global, rt: &HostRuntime, count: u32, times: u32) -> io::Result<()> {
    let count = count.min(1_000);
    let times = times.min(1_000);
    match u128::from(count).checked_pow(times) {
        Some(size) => {
            if size > 1 << 21 {
                return println!(rt; "too great");
            }
            let (terms, same) = square(alloc, count, times)?;
            println!(rt; "{terms} terms, the same in either order: {same}")
        }
        None => println!(rt; "too great"),
    }
}

fn twice(alloc: Global, form: &Horner<i128>) -> Result<Horner<i128>, AllocError>
    requires { size rational 1 form.now ≤ 2 ^ 21 }
{
    let sum = form.add(alloc, form)?;
    Ok(sum)
}

fn product(alloc: Global, f: &Horner<i128>, g: &Horner<i128>) -> Result<Horner<i128>, AllocError>
    requires first { size rational 1 f.now ≤ 2 ^ 21 }
    requires second { size rational 1 g.now ≤ 2 ^ 21 }
    requires first_exponents { (n : ℕ) → exponent n f.now ≤ 2 ^ 20 }
    requires second_exponents { (n : ℕ) → exponent n g.now ≤ 2 ^ 20 }
{
    let product = f.mul(alloc, g)?;
    Ok(product)
}

fn say_deep(alloc: Global, rt: &HostRuntime, height: u32) -> io::Result<()> {
    let height = height.min(20_000);
    let form = tall(alloc, height)?;
    let other = form.copy(alloc)?;
    let same = form.same(&other);
    drop(other);
    let sum = twice(alloc, &form)?;
    let low = tall(alloc, 1)?;
    let first = product(alloc, &form, &low)?;
    let second = product(alloc, &low, &form)?;
    let sum = sum.terms();
    let product = first.terms();
    let turned = first.same(&second);
    println!(rt; "{sum} terms, {product} in the product; {same} {turned}")
}

/// That many sixths.
fn sixths(parts: i128) -> Frac
    requires { unsigned_abs parts ≤ 100 }
    ensures { size_of rational 6 (ratio_at result) ≤ unsigned_abs parts }
{
    match Frac::new(parts, 6) {
        Some(fraction) => fraction,
        None => Frac::whole(0),
    }
}

/// That many sixths of the atom.
fn part(alloc: Global, atom: u32, parts: i128) -> Result<Horner<Frac>, AllocError>
    requires { unsigned_abs parts ≤ 100 }
    ensures size { IfOk result (λ h. size rational 6 h ≤ 100) }
    ensures exponents { IfOk result (λ h. (n : ℕ) → exponent n h ≤ 1) }
{
    let inner = Horner::constant(alloc, sixths(parts))?;
    let none = Horner::constant(alloc, <Frac as Coeff>::zero())?;
    let first = Horner::join(alloc, inner, 1, none)?;
    let form = Horner::skip(alloc, atom, first)?;
    Ok(form)
}

/// That many sixths of the first atom and of the second, added.
fn parts(alloc: Global, first: i128, second: i128) -> Result<Horner<Frac>, AllocError>
    requires first { unsigned_abs first ≤ 100 }
    requires second { unsigned_abs second ≤ 100 }
    ensures size { IfOk result (λ h. size rational 6 h ≤ 200) }
    ensures exponents { IfOk result (λ h. (n : ℕ) → exponent n h ≤ 1) }
{
    let x = part(alloc, 0, first)?;
    let y = part(alloc, 1, second)?;
    let sum = x.add(alloc, &y)?;
    Ok(sum)
}

/// The product of x / 2 + y / 3 and x / 2 - y / 3, in that order or the other.
fn product_of_parts(alloc: Global, turned: bool) -> Result<Horner<Frac>, AllocError> {
    let sum = parts(alloc, 3, 2)?;
    let difference = parts(alloc, 3, -2)?;
    let product = if turned {
        multiplied(alloc, &difference, &sum)?
    } else {
        multiplied(alloc, &sum, &difference)?
    };
    Ok(product)
}

fn multiplied(alloc: Global, f: &Horner<Frac>, g: &Horner<Frac>) -> Result<Horner<Frac>, AllocError>
    requires first { size rational 6 f.now ≤ 200 }
    requires second { size rational 6 g.now ≤ 200 }
    requires first_exponents { (n : ℕ) → exponent n f.now ≤ 1 }
    requires second_exponents { (n : ℕ) → exponent n g.now ≤ 1 }
{
    let product = f.mul(alloc, g)?;
    Ok(product)
}

/// x^2 / 4 - y^2 / 9, put together by hand.
fn difference_of_squares(alloc: Global) -> Result<Horner<Frac>, AllocError> {
    let ninth = Frac::whole(-9).inv();
    let inner = Horner::constant(alloc, ninth)?;
    let none = Horner::constant(alloc, Frac::whole(0))?;
    let rest = Horner::join(alloc, inner, 2, none)?;
    let fourth = Frac::whole(4).inv();
    let inner = Horner::constant(alloc, fourth)?;
    let form = Horner::join(alloc, inner, 2, rest)?;
    Ok(form)
}

fn say_sixths(alloc: Global, rt: &HostRuntime) -> io::Result<()> {
    let product = product_of_parts(alloc, false)?;
    let turned = product_of_parts(alloc, true)?;
    let expected = difference_of_squares(alloc)?;
    let terms = product.terms();
    let same = product.same(&expected);
    let turned = turned.same(&expected);
    println!(rt; "{terms} terms, the difference of two squares: {same} {turned}")
}

fn number(word: Option<&str>) -> u32 {
    match word {
        Some(word) => word.parse::<u32>().unwrap_or(0),
        None => 0,
    }
}

fn main(rt: HostRuntime) -> io::Result<()> {
    for line in rt.lines(rt.alloc()) {
        let line = line?;
        let mut words = line.as_str().split_whitespace();
        let kind = words.next();
        let first = number(words.next());
        let second = number(words.next());
        match kind {
            Some("deep") => say_deep(rt.alloc(), &rt, first)?,
            Some("whole") => say_power::<i128>(rt.alloc(), &rt, first, second)?,
            Some("fraction") => say_power::<Frac>(rt.alloc(), &rt, first, second)?,
            Some("square") => say_square(rt.alloc(), &rt, first, second)?,
            Some("sixths") => say_sixths(rt.alloc(), &rt)?,
            _ => println!(rt; "unknown")?,
        }
    }
    Ok(())
}
