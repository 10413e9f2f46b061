//! Values by place, for few of many places.

ghost use Rattle.std.specs.Prelude.{◌≡◌, ◌<◌, ◌≤◌, ◌/◌, ◌%◌, ℕ, Some, None, true, false, nat_eq, length, All, IfSome, OnOk, slice_get, slice_index_or};
ghost use Rattle.std.specs.Option.{option_copied};
ghost use Rattle.rundiff.specs.kept.PlaceMaps.{kept_at, number_at, page_at};
ghost use Rattle.rundiff.specs.declared.place_map.TheConstants.{PAGE};
ghost use Rattle.rundiff.specs.kept.Places.{is_among};

use std::alloc::{AllocError, Global};

/// How many places have their numbers in one page.
const PAGE: usize = 256;

/// Values at some of many places. What a place has is found by a number in a list of its page, which takes memory once one of
/// its places has a value.
#[derive(Drop)]
pub struct PlaceMap<T: Drop> {
    /// Page by page, for each place the number of its item, counted from 1 on; 0 or missing where it has none.
    pub pages: Vec<Vec<usize>>,
    /// The items, each with the place that it belongs to.
    pub items: Vec<(usize, Option<T>)>,
}

impl<T: Drop> PlaceMap<T> {
    /// A map with no value.
    pub fn new(alloc: Global) -> PlaceMap<T>
        ensures { (p : ℕ) → kept_at result p ≡ None }
    {
        PlaceMap {
            pages: Vec::new(alloc),
            items: Vec::new(alloc),
        }
    }

    /// The value at a place.
    #[inline(always)]
    pub fn get(&self, place: usize) -> Option<&T>
        ensures value { option_copied result ≡ kept_at self.now place }
    {
        let number = number_of(&self.pages, place);
        if number == 0 {
            return None;
        }
        match self.items.get(number - 1) {
            Some(item) if item.0 == place => item.1.as_ref(),
            _ => None,
        }
    }

    /// Takes the value at a place.
    pub fn take(&mut self, place: usize) -> Option<T>
        ensures value { result ≡ kept_at self.old place }
        ensures gone { kept_at self.new place ≡ None }
        ensures others { (q : ℕ) → nat_eq place q ≡ false → kept_at self.new q ≡ kept_at self.old q }
    {
        let number = number_of(&self.pages, place);
        if number == 0 {
            return None;
        }
        match self.items.get_mut(number - 1) {
            Some(item) if item.0 == place => item.1.take(),
            _ => None,
        }
    }

    /// Gives a place this value. It fails where memory runs out.
    pub fn put(&mut self, place: usize, value: T) -> Result<(), AllocError>
        ensures value { OnOk result (kept_at self.new place ≡ Some value) }
        ensures others { OnOk result ((q : ℕ) → nat_eq place q ≡ false → kept_at self.new q ≡ kept_at self.old q) }
    {
        let number = number_of(&self.pages, place);
        if number > 0 {
            if let Some(item) = self.items.get_mut(number - 1) {
                if item.0 == place {
                    item.1 = Some(value);
                    return Ok(());
                }
            }
        }
        self.add(place, value)
    }

    /// Gives a place that has no item this value.
    fn add(&mut self, place: usize, value: T) -> Result<(), AllocError>
        ensures value { OnOk result (kept_at self.new place ≡ Some value) }
        ensures others { OnOk result ((q : ℕ) → nat_eq place q ≡ false → kept_at self.new q ≡ kept_at self.old q) }
    {
        reach(&mut self.pages, place)?;
        self.items.push((place, Some(value)))?;
        set_number(&mut self.pages, place, self.items.len());
        Ok(())
    }

    /// Adds places below `count`, all that have a value among them.
    pub fn add_places(&self, count: usize, places: &mut Vec<usize>) -> Result<(), AllocError>
        ensures below { OnOk result (All (λ p. p < count) places.old.items → All (λ p. p < count) places.new.items) }
        ensures more { OnOk result ((p : ℕ) → is_among places.old.items p ≡ true → is_among places.new.items p ≡ true) }
        ensures kept { OnOk result ((p : ℕ) → p < count → is_among places.new.items p ≡ false → kept_at self.now p ≡ None) }
    {
        for i in 0..self.items.len() {
            self.add_place(i, count, places)?;
        }
        Ok(())
    }

    /// Adds the place of an item, where it is below `count`.
    fn add_place(&self, i: usize, count: usize, places: &mut Vec<usize>) -> Result<(), AllocError>
        ensures below { OnOk result (All (λ p. p < count) places.old.items → All (λ p. p < count) places.new.items) }
        ensures more { OnOk result ((p : ℕ) → is_among places.old.items p ≡ true → is_among places.new.items p ≡ true) }
        ensures added { OnOk result (IfSome (slice_get self.now.items.items i) (λ item. item.0 < count → is_among places.new.items item.0 ≡ true)) }
    {
        match self.items.get(i) {
            Some(item) if item.0 < count => Ok(places.push(item.0)?),
            _ => Ok(()),
        }
    }
}

/// The number of a place; 0 where it has none.
#[inline(always)]
pub fn number_of(pages: &Vec<Vec<usize>>, place: usize) -> usize
    ensures { result ≡ number_at pages.now.items place }
{
    match pages.get(place / PAGE) {
        Some(page) => number_in(page, place % PAGE),
        None => 0,
    }
}

/// The number at a place of a page.
#[inline(always)]
fn number_in(page: &Vec<usize>, place: usize) -> usize
    ensures { result ≡ slice_index_or page.now.items place 0 }
{
    match page.get(place) {
        Some(number) => *number,
        None => 0,
    }
}

/// Makes the page of a place, if it is missing. It fails where memory runs out; the numbers stay.
pub fn reach(pages: &mut Vec<Vec<usize>>, place: usize) -> Result<(), AllocError>
    ensures there { OnOk result (place % PAGE < length (page_at pages.new.items (place / PAGE))) }
    ensures page { OnOk result (place / PAGE < length pages.new.items) }
    ensures same { (q : ℕ) → number_at pages.new.items q ≡ number_at pages.old.items q }
{
    reach_page(pages, place / PAGE)?;
    fill_page(&mut pages[place / PAGE])?;
    Ok(())
}

/// Adds pages without a number, until there is this one.
fn reach_page(pages: &mut Vec<Vec<usize>>, page: usize) -> Result<(), AllocError>
    ensures there { OnOk result (page < length pages.new.items) }
    ensures same { (q : ℕ) → page_at pages.new.items q ≡ page_at pages.old.items q }
{
    make_room(pages, page)?;
    while pages.len() <= page {
        let alloc = *pages.allocator();
        pages.push(Vec::new(alloc))?;
    }
    Ok(())
}

/// Makes room for all pages up to this one at once.
fn make_room(pages: &mut Vec<Vec<usize>>, page: usize) -> Result<(), AllocError>
    ensures { pages.new.items ≡ pages.old.items }
{
    if pages.len() <= page {
        let missing = page - pages.len();
        pages.reserve(missing.saturating_add(1))?;
    }
    Ok(())
}

/// Gives a page all its places.
fn fill_page(page: &mut Vec<usize>) -> Result<(), AllocError>
    ensures whole { OnOk result (PAGE ≤ length page.new.items) }
    ensures same { (q : ℕ) → slice_index_or page.new.items q 0 ≡ slice_index_or page.old.items q 0 }
{
    if page.len() < PAGE {
        page.resize(PAGE, 0)?;
    }
    Ok(())
}

/// Gives a place this number.
pub fn set_number(pages: &mut Vec<Vec<usize>>, place: usize, number: usize)
    requires there { place % PAGE < length (page_at pages.old.items (place / PAGE)) }
    requires page { place / PAGE < length pages.old.items }
    ensures here { number_at pages.new.items place ≡ number }
    ensures others { (q : ℕ) → nat_eq place q ≡ false → number_at pages.new.items q ≡ number_at pages.old.items q }
{
    let page = &mut pages[place / PAGE];
    page[place % PAGE] = number;
}
