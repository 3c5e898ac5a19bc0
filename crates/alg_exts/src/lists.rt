ghost use Rattle.std.specs.Prelude.{◌≡◌, [], ◌++◌, ◌∷◌, map, IfOk};
ghost use Rattle.alg_exts.specs.Lists.{names_in, listed, text_in, is_among, is_title, are_known, on_under, Switched};

use crate::num_ext::NumExt;
use crate::sign_ext::SignExt;
use alg_expr::Memory;
use std::alloc::{AllocError, Global};

/// Which extensions are on, in the order of their lists.
#[derive(Debug, Drop)]
pub struct Switches {
    pub num: Vec<bool>,
    pub sign: Vec<bool>,
}

/// Why no extension is left on.
#[derive(Clone, Copy, Debug, PartialEq, Eq, Drop)]
pub enum ListFault {
    /// A name of the list, which may be empty, is that of no extension.
    Unknown,
    /// Want of memory.
    Memory,
}

impl From<Memory> for ListFault {
    ghost use Rattle.alg_exts.specs.declared.lists.ListFault.TheVariants as fault;

    ghost from_gives = { λ _ f. f ≡ fault.Memory };

    fn from(_: Memory) -> ListFault {
        ListFault::Memory
    }
}

// the names between the commas
fn names_in(alloc: Global, list: &str) -> Result<Vec<&str>, AllocError>
    ensures { IfOk result (λ v. map (λ x. x.now) v.items ≡ names_in list.now) }
{
    list.split(',').collect(alloc)
}

fn listed<'a>(alloc: Global, list: Option<&'a str>) -> Result<Vec<&'a str>, Memory>
    ensures { IfOk result (λ v. map (λ x. x.now) v.items ≡ listed (text_in list.entry)) }
{
    match list {
        Some(list) => Ok(names_in(alloc, list)?),
        None => Ok(Vec::new(alloc)),
    }
}

fn is_among(names: &[&str], name: &str) -> bool
    ensures { result ≡ is_among (map (λ x. x.now) names.now) name.now }
{
    for other in names {
        if *other == name {
            return true;
        }
    }
    false
}

fn num_name(ext: &Box<dyn NumExt>) -> &str
    ensures { result.now ≡ title ext.now }
{
    ext.name()
}

fn sign_name(ext: &Box<dyn SignExt>) -> &str
    ensures { result.now ≡ heading ext.now }
{
    ext.name()
}

fn push(on: &mut Vec<bool>, b: bool) -> Result<(), Memory>
    ensures { IfOk result (λ _. on.new.items ≡ on.old.items ++ b ∷ []) }
{
    match on.push(b) {
        Ok(()) => Ok(()),
        Err(_) => Err(Memory),
    }
}

fn num_on(alloc: Global, num: &[Box<dyn NumExt>], names: &[&str]) -> Result<Vec<bool>, Memory>
    ensures { IfOk result (λ v. v.items ≡ on_under (map (λ x. x.now) names.now) (map (λ x. title x) num.now)) }
{
    let mut on: Vec<bool> = Vec::new(alloc);
    for ext in num {
        push(&mut on, !is_among(names, num_name(ext)))?;
    }
    Ok(on)
}

fn sign_on(alloc: Global, sign: &[Box<dyn SignExt>], names: &[&str]) -> Result<Vec<bool>, Memory>
    ensures { IfOk result (λ v. v.items ≡ on_under (map (λ x. x.now) names.now) (map (λ x. heading x) sign.now)) }
{
    let mut on: Vec<bool> = Vec::new(alloc);
    for ext in sign {
        push(&mut on, !is_among(names, sign_name(ext)))?;
    }
    Ok(on)
}

fn is_num_name(num: &[Box<dyn NumExt>], name: &str) -> bool
    ensures { result ≡ is_title (map (λ x. title x) num.now) name.now }
{
    for ext in num {
        if num_name(ext) == name {
            return true;
        }
    }
    false
}

fn is_sign_name(sign: &[Box<dyn SignExt>], name: &str) -> bool
    ensures { result ≡ is_title (map (λ x. heading x) sign.now) name.now }
{
    for ext in sign {
        if sign_name(ext) == name {
            return true;
        }
    }
    false
}

fn are_known(num: &[Box<dyn NumExt>], sign: &[Box<dyn SignExt>], names: &[&str]) -> bool
    ensures { result ≡ are_known (map (λ x. x.now) names.now) (map (λ x. title x) num.now) (map (λ x. heading x) sign.now) }
{
    for name in names {
        if !(is_num_name(num, name) || is_sign_name(sign, name)) {
            return false;
        }
    }
    true
}

// those that are left on without these names, each of which must be known
fn without(
    alloc: Global,
    num: &[Box<dyn NumExt>],
    sign: &[Box<dyn SignExt>],
    names: &[&str],
) -> Result<Switches, ListFault>
    ensures { Switched result (map (λ x. x.now) names.now) (map (λ x. title x) num.now) (map (λ x. heading x) sign.now) }
{
    if !are_known(num, sign, names) {
        return Err(ListFault::Unknown);
    }
    let num = num_on(alloc, num, names)?;
    let sign = sign_on(alloc, sign, names)?;
    Ok(Switches { num, sign })
}

/// The extensions that a list of names leaves on: those whose name isn't one of them. The names stand between commas;
/// one may stand there repeatedly, and is that of each extension that has it. Without a list all are on. `Unknown` comes
/// exactly where a name is that of no extension.
pub fn left_on<'a>(
    alloc: Global,
    num: &[Box<dyn NumExt>],
    sign: &[Box<dyn SignExt>],
    list: Option<&'a str>,
) -> Result<Switches, ListFault>
    ensures { Switched result (listed (text_in list.entry)) (map (λ x. title x) num.now) (map (λ x. heading x) sign.now) }
{
    let names = listed(alloc, list)?;
    without(alloc, num, sign, names.as_slice())
}
