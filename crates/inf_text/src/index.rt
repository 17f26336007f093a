//! The search for the longest abbreviation.
//!
//! The texts stand in an order in which those that begin alike are neighbours, each with how many items it has in common with the one
//! before it. So what was compared with one text need not be compared again with the next. Where texts part, the group with the most texts
//! comes first: then few texts are begun and left again on the way to any other, since each time at least half of the group that is left
//! lies behind. No clause rests on the order: it only makes the search short.
ghost use Rattle.std.specs.Prelude.{◌≡◌, ◌<◌, ◌≤◌, ◌+◌, ◌-◌, ◌==◌, ◌&&◌, ◌||◌, IfSome, None, [], length, drop, replicate, if◌then◌else◌};
ghost use Rattle.inf_characters.specs.Items.{same_item};
ghost use Rattle.inf_text.specs.Packing.{begins_with, longest};
ghost use Rattle.inf_text.specs.Searching.{AreBelow, AreIndexed, AreRanges, HaveLinks, IsIndex, IsOrder, best_of, code_of, common};
ghost use Rattle.inf_text.specs.Searching.{first_code, linked_from, pick};

use arrayvec::ArrayVec;
use inf_characters::{Text, TextItem};

/// The most abbreviations that a source may declare.
pub(crate) const MOST: usize = 64;

/// An abbreviation by its number and its length, how many items it has in common with the one before it, and the code of the next item.
#[derive(Clone, Copy, Default)]
pub(crate) struct Link {
    number: u8,
    next: u8,
    shared: usize,
    len: usize,
}

/// For each code the places from the first to the last text that begins with it, and the place behind.
#[derive(Clone, Copy)]
pub(crate) struct Ranges {
    starts: [u8; 256],
    ends: [u8; 256],
}

/// The texts by their numbers, sorted, and in the order of the search.
#[derive(Drop)]
pub(crate) struct Index {
    sorted: ArrayVec<u8, MOST>,
    order: ArrayVec<u8, MOST>,
    links: ArrayVec<Link, MOST>,
    ranges: Ranges,
}

impl Index {
    /// Returns the index of no texts.
    pub(crate) fn new() -> Index
        ensures { IsIndex [] result }
    {
        Index {
            sorted: ArrayVec::new(),
            order: ArrayVec::new(),
            links: ArrayVec::new(),
            ranges: ranges_of(&[], &[]),
        }
    }

    /// Adds the last of the texts.
    pub(crate) fn add(&mut self, texts: &[Text])
        requires sorted { IsOrder (length texts.now - 1) self.old.sorted.items }
        requires some { 0 < length texts.now }
        requires few { length texts.now ≤ 64 }
        ensures { IsIndex texts.now self.new }
    {
        let number = texts.len() - 1;
        let place = place_of(texts[number].as_slice(), texts, self.sorted.as_slice());
        self.sorted.insert(place, number as u8);
        let neighbours = linked(texts, self.sorted.as_slice());
        self.order = order_of(neighbours.as_slice());
        self.links = linked(texts, self.order.as_slice());
        self.ranges = ranges_of(texts, self.order.as_slice());
    }

    #[inline]
    pub(crate) fn longest(&self, texts: &[Text], items: &[TextItem]) -> Option<(usize, usize)>
        requires { AreIndexed texts.now self.now }
        ensures { result ≡ longest texts.now items.now }
    {
        let code = usize::from(first_code(items));
        let start = usize::from(self.ranges.starts[code]);
        let end = usize::from(self.ranges.ends[code]);
        longest_of(&self.links.as_slice()[start..end], texts, items)
    }
}

/// Returns the longest of some texts with which the items begin: its number and its length.
fn longest_of(links: &[Link], texts: &[Text], items: &[TextItem]) -> Option<(usize, usize)>
    requires { HaveLinks texts.now links.now }
    ensures { result ≡ best_of texts.now items.now None links.now }
{
    let (first, others) = links.split_first()?;
    let text = texts[usize::from(first.number)].as_slice();
    let mut matched = common_len(items, text);
    let mut code = code_behind(items, matched);
    let mut best = taken(None, usize::from(first.number), text.len(), matched);
    for link in others {
        if may_go_on(*link, matched, code) {
            let text = texts[usize::from(link.number)].as_slice();
            matched = common_from(matched, items, text);
            code = code_behind(items, matched);
            best = taken(best, usize::from(link.number), link.len, matched);
        } else if link.shared < matched {
            matched = link.shared;
            code = code_behind(items, matched);
            best = taken(best, usize::from(link.number), link.len, matched);
        }
    }
    best
}

/// Returns the number of items that `items` and `text` have in common at their fronts, where `matched` of them are known to be.
#[inline]
fn common_from(matched: usize, items: &[TextItem], text: &[TextItem]) -> usize
    requires items { matched ≤ length items.now }
    requires text { matched ≤ length text.now }
    ensures value { result ≡ matched + common (drop matched items.now) (drop matched text.now) }
    ensures fits { result ≤ length items.now }
{
    matched + common_len(&items[matched..], &text[matched..])
}

/// Returns the code of the item that follows the first `passed`, or 0 at the end.
#[inline]
fn code_behind(items: &[TextItem], passed: usize) -> u8
    requires { passed ≤ length items.now }
    ensures { result ≡ first_code (drop passed items.now) }
{
    first_code(&items[passed..])
}

/// Returns whether the text of `link` may have more in common with some items than the text before it, which has
/// `matched` items in common with them; `code` is that of the item behind these.
#[inline]
fn may_go_on(link: Link, matched: usize, code: u8) -> bool
    ensures { result ≡ ((link.shared == matched) && ((link.len == matched) || (link.next == code))) }
{
    link.shared == matched && (link.len == matched || link.next == code)
}

/// Returns the better of `best` and the text of `number`, which has `len` items: that text where all its items are
/// matched and it is longer, or as long with a lower number.
#[inline]
fn taken(
    best: Option<(usize, usize)>,
    number: usize,
    len: usize,
    matched: usize,
) -> Option<(usize, usize)>
    ensures { result ≡ (if matched == len then pick best number len else best) }
{
    if matched != len {
        return best;
    }
    match best {
        Some((other, most)) if len < most || (len == most && other <= number) => best,
        _ => Some((number, len)),
    }
}

/// Returns the number of items that two texts have in common at their fronts.
#[inline]
fn common_len(items: &[TextItem], text: &[TextItem]) -> usize
    ensures value { result ≡ common items.now text.now }
    ensures fits { result ≤ length items.now }
    ensures fits_text { result ≤ length text.now }
{
    let most = items.len().min(text.len());
    for i in 0..most {
        if !same_item(items[i], text[i]) {
            return i;
        }
    }
    most
}

/// Returns whether some items begin with others.
#[tactic(auto, using(crate::proofs::Linking::begins_with_common))]
pub(crate) fn begins_with(items: &[TextItem], front: &[TextItem]) -> bool
    ensures { result ≡ begins_with items.now front.now }
{
    common_len(items, front) == front.len()
}

/// Returns whether two items are the same.
#[inline]
fn same_item(a: TextItem, b: TextItem) -> bool
    ensures { result ≡ same_item a b }
{
    a == b
}

/// Returns the code of the first item, or its number.
#[inline]
fn first_code(items: &[TextItem]) -> u8
    ensures { result ≡ first_code items.now }
{
    match items {
        [item, ..] => code_of(*item),
        [] => 0,
    }
}

#[inline]
fn code_of(item: TextItem) -> u8
    ensures { result ≡ code_of item }
{
    match item {
        TextItem::Character(character) => character.code(),
        TextItem::Variable(number) => number,
    }
}

/// Returns the place of `text` among sorted ones: before the first that it precedes.
fn place_of(text: &[TextItem], texts: &[Text], sorted: &[u8]) -> usize
    requires { AreBelow (length texts.now) sorted.now }
    ensures { result ≤ length sorted.now }
{
    for (place, number) in sorted.iter().enumerate() {
        if precedes(text, texts[usize::from(*number)].as_slice()) {
            return place;
        }
    }
    sorted.len()
}

/// Returns whether a text comes before another: at the first item that they have not in common it ends or has the lower code.
fn precedes(text: &[TextItem], other: &[TextItem]) -> bool {
    let shared = common_len(text, other);
    match (text.get(shared), other.get(shared)) {
        (Some(item), Some(next)) => code_of(*item) < code_of(*next),
        (Some(_), None) => false,
        (None, _) => true,
    }
}

/// Returns the order in which sorted texts are searched.
fn order_of(sorted: &[Link]) -> ArrayVec<u8, MOST>
    requires { length sorted.now ≤ 64 }
    ensures { IsOrder (length sorted.now) result.items }
{
    let mut order = ArrayVec::new();
    for number in 0..sorted.len() {
        let turn = turn_of(number, sorted, order.as_slice());
        order.insert(turn, number as u8);
    }
    order
}

/// Returns the turn of the text of `number` in the order of the search: before the first that it precedes there.
fn turn_of(number: usize, sorted: &[Link], order: &[u8]) -> usize
    ensures { result ≤ length order.now }
{
    let place = place_among(sorted, number);
    for (turn, other) in order.iter().enumerate() {
        if is_first(sorted, place, place_among(sorted, usize::from(*other))) {
            return turn;
        }
    }
    order.len()
}

/// Returns the place of the text of a number.
fn place_among(sorted: &[Link], number: usize) -> usize {
    sorted
        .iter()
        .position(|link| usize::from(link.number) == number)
        .unwrap_or(0)
}

/// Returns whether the text at a place is searched before the one at another: it ends where they part, or more
/// texts go on there as it does, or as many and it stands first.
fn is_first(sorted: &[Link], place: usize, other: usize) -> bool {
    let shared = shared_from(sorted, place.min(other), place.max(other));
    if ends_at(sorted, place, shared) {
        return true;
    }
    if ends_at(sorted, other, shared) {
        return false;
    }
    let len = group_len(sorted, place, shared);
    let other_len = group_len(sorted, other, shared);
    len > other_len || (len == other_len && place < other)
}

/// Returns the number of items that the text at `place` has in common with the one at `behind`, which comes later.
fn shared_from(sorted: &[Link], place: usize, behind: usize) -> usize {
    let mut least = usize::MAX;
    for (i, link) in sorted.iter().enumerate() {
        if place < i && i <= behind {
            least = least.min(link.shared);
        }
    }
    least
}

/// Returns whether the text at `place` has exactly `len` items.
fn ends_at(sorted: &[Link], place: usize, len: usize) -> bool {
    match sorted.get(place) {
        Some(link) => link.len == len,
        None => false,
    }
}

/// Returns the size of the group around the text at `place`: the neighbours that have more than `shared` items in
/// common with it, and that text.
fn group_len(sorted: &[Link], place: usize, shared: usize) -> usize {
    let mut start = 0;
    for (i, link) in sorted.iter().enumerate() {
        if link.shared <= shared && place < i {
            return i.saturating_sub(start);
        }
        if link.shared <= shared {
            start = i;
        }
    }
    sorted.len().saturating_sub(start)
}

/// Returns the texts in their order, each with what it has in common with the one before it.
fn linked(texts: &[Text], order: &[u8]) -> ArrayVec<Link, MOST>
    requires numbers { AreBelow (length texts.now) order.now }
    requires few { length order.now ≤ 64 }
    ensures { result.items ≡ linked_from texts.now [] order.now }
{
    let mut links = ArrayVec::new();
    let mut before: &[TextItem] = &[];
    for number in order {
        let text = texts[usize::from(*number)].as_slice();
        let shared = common_len(before, text);
        links.push(Link {
            number: *number,
            next: first_code(&text[shared..]),
            shared,
            len: text.len(),
        });
        before = text;
    }
    links
}

/// Returns the ranges of no texts.
fn no_ranges() -> Ranges
    ensures { result ≡ record { starts = replicate 256 0; ends = replicate 256 0 } }
{
    Ranges {
        starts: [0; 256],
        ends: [0; 256],
    }
}

/// Returns for each code the places of the texts that begin with it.
fn ranges_of(texts: &[Text], order: &[u8]) -> Ranges
    requires numbers { AreBelow (length texts.now) order.now }
    requires few { length order.now ≤ 64 }
    ensures { AreRanges texts.now order.now result }
{
    let mut ranges = no_ranges();
    for (place, number) in order.iter().enumerate() {
        let code = usize::from(first_code(texts[usize::from(*number)].as_slice()));
        if ranges.ends[code] == 0 {
            ranges.starts[code] = place as u8;
        }
        ranges.ends[code] = place as u8 + 1;
    }
    ranges
}
