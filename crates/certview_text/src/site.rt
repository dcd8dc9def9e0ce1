//! The fields of a message and their byte ranges, as far as the headers can be read. The message
//! may be one that its grammar refuses.

use crate::shape::Shape;
use certview_parts::place::Place;
use certview_parts::values::sizes;

/// The extent of an encoding: the offsets of its start, its contents and its end.
#[derive(Clone, Copy, Debug, PartialEq, Eq)]
pub struct Extent {
    /// The offset of its first octet.
    pub begin: usize,
    /// The offset of its contents octets.
    pub contents: usize,
    /// The offset of the octet after it.
    pub end: usize,
}

impl Extent {
    /// Returns the number of octets of the encoding.
    pub fn len(self) -> usize {
        self.end.saturating_sub(self.begin)
    }

    /// Returns whether the octet at this offset is part of the encoding.
    fn has(self, octet: usize) -> bool {
        self.begin <= octet && octet < self.end
    }

    /// Returns its byte range, as far as 32 bits can express it.
    fn place(self) -> Place {
        Place {
            offset: u32::try_from(self.begin).unwrap_or(u32::MAX),
            length: u32::try_from(self.len()).unwrap_or(u32::MAX),
        }
    }
}

/// Returns the extent of the value that begins at `begin` and ends at `end` at the latest; none
/// if there is no octet between. If no header can be read, all these octets are its header.
fn extent_at(octets: &[u8], begin: usize, end: usize) -> Option<Extent> {
    let left = octets.get(begin..end)?;
    if left.is_empty() {
        return None;
    }
    let (header, whole) = sizes(left);
    if header == 0 {
        return Some(Extent {
            begin,
            contents: end,
            end,
        });
    }
    Some(Extent {
        begin,
        contents: begin.saturating_add(header),
        end: begin.saturating_add(whole),
    })
}

/// Returns the extent of a message: all of the octets. If no header can be read, all octets are
/// its header.
fn extent_of_all(octets: &[u8]) -> Extent {
    let end = octets.len();
    let contents = match sizes(octets).0 {
        0 => end,
        count => count,
    };
    Extent {
        begin: 0,
        contents,
        end,
    }
}

/// A part of a message, and its extent.
#[derive(Clone, Copy)]
pub struct Site {
    /// Its index among the fields of the part that contains it.
    pub step: usize,
    /// Its structure.
    pub shape: Shape,
    /// Its extent.
    pub extent: Extent,
}

/// An iterator over the fields of a part, in the order of the octets.
#[derive(Drop)]
pub struct Sites<'a> {
    octets: &'a [u8],
    shape: Shape,
    begin: usize,
    end: usize,
    next: usize,
}

impl Site {
    /// Returns a message of this shape: all of the octets.
    pub fn whole(octets: &[u8], shape: Shape) -> Site {
        Site {
            step: 0,
            shape,
            extent: extent_of_all(octets),
        }
    }

    /// Returns the first field with this name; an empty site at the end if there is none.
    pub fn field(&self, octets: &[u8], name: &str) -> Site {
        let mut sites = Sites::within(octets, self);
        for _ in self.extent.contents..self.extent.end {
            match sites.next_site() {
                Some(site) if name_of(self.shape, site.step) == name => return site,
                Some(_) => {}
                None => return self.nothing(),
            }
        }
        self.nothing()
    }

    /// Returns the field that contains the octet at this offset.
    pub fn field_with(&self, octets: &[u8], octet: usize) -> Option<Site> {
        let mut sites = Sites::within(octets, self);
        for _ in self.extent.contents..self.extent.end {
            let site = sites.next_site()?;
            if site.extent.has(octet) {
                return Some(site);
            }
        }
        None
    }

    /// Returns an empty site at the end.
    fn nothing(&self) -> Site {
        let end = self.extent.end;
        Site {
            step: 0,
            shape: Shape::value(),
            extent: Extent {
                begin: end,
                contents: end,
                end,
            },
        }
    }

    /// Returns its byte range.
    pub fn place(&self) -> Place {
        self.extent.place()
    }
}

impl<'a> Sites<'a> {
    /// Returns an iterator over the fields of a part.
    pub fn within(octets: &'a [u8], site: &Site) -> Sites<'a> {
        Sites {
            octets,
            shape: site.shape,
            begin: site.extent.contents,
            end: site.extent.end,
            next: 0,
        }
    }

    /// Returns the next field, if there is one with a name.
    pub fn next_site(&mut self) -> Option<Site> {
        let extent = extent_at(self.octets, self.begin, self.end)?;
        let tag = *self.octets.get(extent.begin)?;
        let step = self.step_with(tag)?;
        let shape = self.shape.field(step)?.shape;
        self.begin = extent.end;
        Some(Site {
            step,
            shape,
            extent,
        })
    }

    /// Returns the next field that may begin with this octet, and skips absent ones. If there is
    /// none, returns the next CHOICE, which has no alternative with this octet.
    fn step_with(&mut self, octet: u8) -> Option<usize> {
        let step = match step_beginning(self.shape, self.next, octet) {
            Some(step) => step,
            None => step_of_choice(self.shape, self.next)?,
        };
        if !self.shape.is_list() {
            self.next = step_after(self.shape, step);
        }
        Some(step)
    }
}

/// Returns the name of the shape's field with this index; empty if there is no such field, or if
/// it is an item.
fn name_of(shape: Shape, step: usize) -> &'static str {
    match shape.field(step) {
        Some(field) => field.name,
        None => "",
    }
}

/// Returns the first field from an index on that may begin with this octet.
fn step_beginning(shape: Shape, next: usize, octet: u8) -> Option<usize> {
    for step in next..shape.count() {
        if may_begin(shape, step, octet) {
            return Some(step);
        }
    }
    None
}

/// Returns whether the field with this index may begin with this octet. A field that is never
/// absent may begin with any octet: its index alone identifies it.
fn may_begin(shape: Shape, step: usize, octet: u8) -> bool {
    match shape.field(step) {
        Some(field) => match field.octet {
            Some(first) => first == octet,
            None => true,
        },
        None => false,
    }
}

/// Returns the first field from an index on that is one of several alternatives. Alternatives
/// share one name.
fn step_of_choice(shape: Shape, next: usize) -> Option<usize> {
    for step in next..shape.count() {
        if step_after(shape, step) > step.saturating_add(1) {
            return Some(step);
        }
    }
    None
}

/// Returns the index after a field, and after its other alternatives if it is one of several.
fn step_after(shape: Shape, step: usize) -> usize {
    let Some(field) = shape.field(step) else {
        return shape.count();
    };
    for after in step..shape.count() {
        if name_of(shape, after) != field.name {
            return after;
        }
    }
    shape.count()
}
