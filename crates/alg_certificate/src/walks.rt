ghost use Rattle.std.specs.Prelude.{◌≡◌, ◌<◌, ◌+◌, ◌^◌, ◌&&◌, ℕ, List, option_map};
ghost use Rattle.alg_certificate.specs.Seen.{seen};
ghost use Rattle.alg_certificate.specs.Walks.{word_fits, is_tree_slot, is_semicolon_slot, fits, first_fit, may_stop, Standing, opens, begun, closed, in_tree, after_tree, at_blank, moved, may_stop_at, allows};
ghost use Rattle.alg_certificate.specs.Cutting.{is_empty};
ghost use Rattle.alg_certificate.specs.declared.patterns.Part.{Part};

use crate::patterns::{Part, Slot};
use crate::tokens::{Token, next_token};
use crate::words::{
    is_bridge, is_comparison, is_head, is_name, is_number, is_numeral, is_relation, is_sort,
    is_symbol,
};

// Where in a line's items a reader stands.
#[derive(Clone, Copy)]
pub(crate) enum Spot {
    // After an item.
    Between,
    // Behind the blank before an item.
    Before,
    // Behind a node's head.
    Opened,
    // Behind the blank before a node's argument.
    Beginning,
    // After a node's argument.
    Ended,
}

type Standing = (Spot, usize, &'static [Part]);

fn word_fits(slot: Slot, word: &[u8]) -> bool
    ensures { result ≡ word_fits slot word.now }
{
    match slot {
        Slot::Tree => false,
        Slot::Number => is_number(word),
        Slot::Sort => is_sort(word),
        Slot::Symbol => is_symbol(word),
        Slot::Relation => is_relation(word),
        Slot::Comparison => is_comparison(word),
        Slot::Name => is_name(word),
        Slot::Bridge => is_bridge(word),
        Slot::Head => is_head(word),
        Slot::Numeral => is_numeral(word),
        Slot::Semicolon => false,
    }
}

fn is_tree_slot(slot: Slot) -> bool
    ensures { result ≡ is_tree_slot slot }
{
    matches!(slot, Slot::Tree)
}

fn is_semicolon_slot(slot: Slot) -> bool
    ensures { result ≡ is_semicolon_slot slot }
{
    matches!(slot, Slot::Semicolon)
}

// Whether an item of this kind may begin with the token.
#[inline(always)]
fn fits(slot: Slot, token: Token) -> bool
    ensures { result ≡ fits slot (seen token.entry) }
{
    match token {
        Token::Blank => false,
        Token::Close => false,
        Token::Semi => is_semicolon_slot(slot),
        Token::Open(word) => is_tree_slot(slot) && is_symbol(word),
        Token::Lit(word, _) => is_tree_slot(slot) && is_sort(word),
        Token::Var(_) => is_tree_slot(slot),
        Token::Word(word) => word_fits(slot, word),
    }
}

// The parts that are left after the item that begins with the token.
#[inline(always)]
fn first_fit(parts: &'static [Part], token: Token) -> Option<&'static [Part]>
    ensures { option_map {U = List Part} (λ x. x.now) result ≡ first_fit parts.now (seen token.entry) }
{
    let mut left = parts;
    'parts: while let Some((part, rest)) = left.split_first() {
        match *part {
            Part::One(slot) => {
                return if fits(slot, token) { Some(rest) } else { None };
            }
            Part::Many(slot) => {
                if fits(slot, token) {
                    return Some(left);
                }
            }
        }
        left = rest;
    }
    None
}

// Whether nothing has to follow.
fn may_stop(parts: &[Part]) -> bool
    ensures { result ≡ may_stop parts.now }
{
    let mut left = parts;
    'parts: while let Some((part, rest)) = left.split_first() {
        if let Part::One(_) = *part {
            return false;
        }
        left = rest;
    }
    true
}

fn opens(token: Token) -> bool
    ensures { result ≡ opens (seen token.entry) }
{
    matches!(token, Token::Open(_))
}

#[inline(always)]
fn begun(parts: &'static [Part], token: Token) -> Option<Standing>
    ensures { option_map {U = Standing} (λ x. (x.0, x.1, x.2.now)) result ≡ begun (seen token.entry) (first_fit parts.now (seen token.entry)) }
{
    let rest = first_fit(parts, token)?;
    if opens(token) {
        Some((Spot::Opened, 1, rest))
    } else {
        Some((Spot::Between, 0, rest))
    }
}

fn closed(depth: usize, parts: &'static [Part]) -> Option<Standing>
    ensures { option_map {U = Standing} (λ x. (x.0, x.1, x.2.now)) result ≡ closed depth parts.now }
{
    match depth {
        0 => None,
        1 => Some((Spot::Between, 0, parts)),
        _ => Some((Spot::Ended, depth - 1, parts)),
    }
}

#[inline(always)]
fn in_tree(depth: usize, parts: &'static [Part], token: Token) -> Option<Standing>
    requires { depth + 1 < 2 ^ 64 }
    ensures { option_map {U = Standing} (λ x. (x.0, x.1, x.2.now)) result ≡ in_tree depth parts.now (seen token.entry) }
{
    match token {
        Token::Lit(word, _) => {
            if is_sort(word) {
                Some((Spot::Ended, depth, parts))
            } else {
                None
            }
        }
        Token::Var(_) => Some((Spot::Ended, depth, parts)),
        Token::Open(word) => {
            if is_symbol(word) {
                Some((Spot::Opened, depth + 1, parts))
            } else {
                None
            }
        }
        _ => None,
    }
}

#[inline(always)]
fn after_tree(depth: usize, parts: &'static [Part], token: Token) -> Option<Standing>
    ensures { option_map {U = Standing} (λ x. (x.0, x.1, x.2.now)) result ≡ after_tree depth parts.now (seen token.entry) }
{
    match token {
        Token::Blank => Some((Spot::Beginning, depth, parts)),
        Token::Close => closed(depth, parts),
        _ => None,
    }
}

#[inline(always)]
fn at_blank(spot: Spot, depth: usize, parts: &'static [Part], token: Token) -> Option<Standing>
    ensures { option_map {U = Standing} (λ x. (x.0, x.1, x.2.now)) result ≡ at_blank spot depth parts.now (seen token.entry) }
{
    match token {
        Token::Blank => Some((spot, depth, parts)),
        _ => None,
    }
}

#[inline(always)]
fn moved(spot: Spot, depth: usize, parts: &'static [Part], token: Token) -> Option<Standing>
    requires { depth + 1 < 2 ^ 64 }
    ensures { option_map {U = Standing} (λ x. (x.0, x.1, x.2.now)) result ≡ moved spot depth parts.now (seen token.entry) }
{
    match spot {
        Spot::Between => at_blank(Spot::Before, 0, parts, token),
        Spot::Before => begun(parts, token),
        Spot::Opened => at_blank(Spot::Beginning, depth, parts, token),
        Spot::Beginning => in_tree(depth, parts, token),
        Spot::Ended => after_tree(depth, parts, token),
    }
}

fn may_stop_at(spot: Spot, parts: &[Part]) -> bool
    ensures { result ≡ may_stop_at spot parts.now }
{
    match spot {
        Spot::Between => may_stop(parts),
        _ => false,
    }
}

fn is_over(left: &[u8], spot: Spot, parts: &[Part]) -> bool
    ensures { result ≡ (is_empty left.now && may_stop_at spot parts.now) }
{
    left.is_empty() && may_stop_at(spot, parts)
}

// Whether the text is items that these parts allow. Takes no memory.
pub(crate) fn allows(parts: &'static [Part], text: &[u8]) -> bool
    ensures { result ≡ allows parts.now text.now }
{
    let mut spot = Spot::Between;
    let mut depth = 0;
    let mut parts_left = parts;
    let mut left = text;
    'tokens: while let Some((token, rest)) = next_token(left) {
        let Some((next, nodes, others)) = moved(spot, depth, parts_left, token) else {
            return false;
        };
        spot = next;
        depth = nodes;
        parts_left = others;
        left = rest;
    }
    is_over(left, spot, parts_left)
}
