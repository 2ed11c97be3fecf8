// The lines of a plan, counted first, so that a buffer too short for them stays as it was.
ghost use Rattle.std.specs.Prelude.{◌≡◌, ◌+◌, ◌≤◌, length, take, IfOk};
ghost use Rattle.std.specs.List.{AllByRecursion};
ghost use Rattle.listing.specs.Listing.{Put, Sized, area_words, left_in, line_of, listed, listing_of, wire_line, wire_lines};
ghost use Rattle.listing.specs.Pens.{HasRoom, Writes};
ghost use Rattle.listing.specs.Reading.{read_back, told};

use crate::pen::{Pen, digits_of};
use crate::refusal::Refusal;
use planner::plan::Link;
use ruler::ruler::Ruler;
use sheet::sheet::Sheet;

// The numbers of a wire in the order of its line, each of 64 bits at most.
fn numbers_of(link: &Link) -> (u64, u64, u64)
    ensures order { result ≡ (link.now.from, link.now.to, link.now.current) }
    ensures sized { Sized link.now }
{
    let Link { from, to, current } = *link;
    (u64::from(from), u64::from(to), u64::from(current))
}

// A wire has a letter, three spaces and a line end besides its numbers.
fn link_length(link: &Link) -> usize
    ensures count { result ≡ length (wire_line link.now) }
    ensures few { result ≤ 65 }
    ensures sized { Sized link.now }
{
    let (from, to, current) = numbers_of(link);
    5 + digits_of(from) + digits_of(to) + digits_of(current)
}

fn text_length(area: u64, links: &[Link]) -> usize
    requires { length links.now ≤ 1024 }
    ensures count { result ≡ length (listing_of area links.now) }
    ensures sized { AllByRecursion Sized links.now }
{
    let mut count = digits_of(area) + 3;
    for link in links {
        count += link_length(link);
    }
    count
}

impl<'a> Pen<'a> {
    fn put_area(&mut self, area: u64)
        requires { HasRoom self.old (line_of (area_words area)) }
        ensures { Writes self.old self.new (line_of (area_words area)) }
    {
        self.put(b"s ");
        self.put_last(area);
    }

    fn put_link(&mut self, link: &Link)
        requires { HasRoom self.old (wire_line link.now) }
        ensures { Writes self.old self.new (wire_line link.now) }
    {
        let (from, to, current) = numbers_of(link);
        self.put(b"f ");
        self.put_word(from, b' ');
        self.put_word(to, b' ');
        self.put_last(current);
    }

    fn put_links(&mut self, links: &[Link])
        requires { HasRoom self.old (wire_lines links.now) }
        ensures { Writes self.old self.new (wire_lines links.now) }
    {
        for link in links {
            self.put_link(link);
        }
    }

    fn put_listing(&mut self, area: u64, links: &[Link])
        requires { HasRoom self.old (listing_of area links.now) }
        ensures { Writes self.old self.new (listing_of area links.now) }
    {
        self.put_area(area);
        self.put_links(links);
    }
}

// Writes the lines at the start of a buffer, and answers how many bytes they take.
fn write_lines(area: u64, links: &[Link], buffer: &mut [u8]) -> usize
    requires { length (listing_of area links.now) ≤ length buffer.old }
    ensures { Put buffer.old 0 (listing_of area links.now) buffer.new result }
{
    let mut pen = Pen { out: buffer, at: 0 };
    pen.put_listing(area, links);
    pen.at
}

// Writes the plan of a sheet into a buffer, and answers how many bytes it takes.
pub fn list<R: Ruler>(sheet: &Sheet<R>, buffer: &mut [u8]) -> Result<usize, Refusal>
    ensures answer { result ≡ listed sheet.now.net.plan (length buffer.old) }
    ensures after { buffer.new ≡ left_in sheet.now.net.plan buffer.old }
    ensures reads_back { IfOk result (λ n. read_back (take n buffer.new) ≡ told sheet.now.net.plan) }
{
    let Some(plan) = sheet.planned() else {
        return Err(Refusal::NotPlanned);
    };
    let links = plan.links.as_slice();
    let length = text_length(plan.area, links);
    if length > buffer.len() {
        return Err(Refusal::TextTooLong);
    }
    Ok(write_lines(plan.area, links, buffer))
}
