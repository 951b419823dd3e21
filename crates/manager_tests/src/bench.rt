//! A segment under test: each call compares what a call of the segment answers under a name of one letter with what is
//! wanted, and notes if that is something else. So a test is a line of calls without facts, and its last one asks.
ghost use Rattle.std.specs.Prelude.{◌≤◌};

use crate::checks::holds;
use seg_types::{Class, Handle, IndexKey, Key, Kind, Name, NewKey, Refusal, Scalar};
use segment_manager::Segment;
use std::process::Abort;

/// A segment under test, and whether all was as is wanted so far.
#[derive(Drop)]
pub struct Bench {
    pub segment: Segment,
    is_right: bool,
}

/// What is answered of an object that is looked for: its handle and count, nothing, or a refusal.
pub type Found = Result<Option<(Handle, u32)>, Refusal>;

/// What an object tells of itself: `kind_of`, `instance_name`, `instance_class` and `instance_length`.
#[derive(Clone, Copy)]
pub struct Told {
    pub kind: Kind,
    pub name: Option<&'static [u8]>,
    pub class: Class,
    pub count: u64,
}

impl Bench {
    /// Makes a segment of which nothing was asked yet.
    pub fn new(segment: Segment) -> Bench {
        Bench {
            segment,
            is_right: true,
        }
    }

    /// Fails if something was not as is wanted. It takes the segment, since to let go of one in each test is dear to
    /// prove.
    pub fn ends(self, rt: &impl Abort) {
        holds(rt, self.is_right);
    }

    /// Tells whether all was as is wanted so far.
    pub fn is_right(&self) -> bool {
        self.is_right
    }

    /// Notes if something is not so.
    pub fn holds(&mut self, so: bool) {
        if !so {
            self.is_right = false;
        }
    }

    /// Notes a failure if the call's answer is not the expected one.
    pub fn same<T: PartialEq + Drop>(&mut self, got: T, want: T) {
        self.holds(got == want);
    }

    /// Returns the name that these bytes spell.
    pub fn name<'a>(&mut self, bytes: &'a [u8]) -> Option<Name<'a>> {
        let name = Name::new(bytes);
        self.holds(name.is_some());
        name
    }

    /// Returns the key of the object of this name.
    fn key<'a>(&mut self, bytes: &'a [u8]) -> Key<'a> {
        match self.name(bytes) {
            Some(name) => Key::Name(name),
            None => Key::Handle(0),
        }
    }

    /// Checks that `free` bytes are free.
    pub fn has_free(&mut self, free: u64) {
        let is_free = self.segment.free() == free;
        self.holds(is_free);
    }

    /// Checks `construct`: `count` times the value, at this handle.
    pub fn makes<T: Scalar>(&mut self, name: u8, count: u32, value: T, handle: Handle)
        requires non_empty { 1 ≤ count }
        requires max_count { count ≤ 1048576 }
    {
        if let Some(name) = self.name(&[name]) {
            let made = self.segment.construct(&NewKey::Name(name), count, value);
            self.same(made, Ok(handle));
        }
    }

    /// Checks `find_or_construct`: handle and count of what is there then.
    pub fn finds_or_makes<T: Scalar>(
        &mut self,
        name: u8,
        count: u32,
        value: T,
        found: (Handle, u32),
    )
        requires non_empty { 1 ≤ count }
        requires max_count { count ≤ 1048576 }
    {
        if let Some(name) = self.name(&[name]) {
            let key = IndexKey::Name(name);
            let made = self.segment.find_or_construct(&key, count, value);
            self.same(made, Ok(found));
        }
    }

    /// Checks `find`: handle and count, or nothing.
    pub fn finds<T: Scalar>(&mut self, name: u8, found: Found) {
        let name = [name];
        let key = self.key(&name);
        let got = self.segment.find::<T>(&key);
        self.same(got, found);
    }

    /// Checks `get`: the element at `i`.
    pub fn has<T: Scalar + PartialEq>(&mut self, name: u8, i: u64, value: T) {
        self.gets(name, i, Ok(value));
    }

    /// Checks `get`: there is no such element, and why.
    pub fn lacks<T: Scalar + PartialEq>(&mut self, name: u8, i: u64, why: Refusal) {
        self.gets::<T>(name, i, Err(why));
    }

    fn gets<T: Scalar + PartialEq>(&mut self, name: u8, i: u64, wanted: Result<T, Refusal>) {
        let name = [name];
        let key = self.key(&name);
        let got = self.segment.get(&key, i);
        self.same(got, wanted);
    }

    /// Checks `set`: the element at `i` is another value, or this is refused.
    pub fn sets<T: Scalar>(&mut self, name: u8, i: u64, value: T, done: Result<(), Refusal>) {
        let name = [name];
        let key = self.key(&name);
        let set = self.segment.set(&key, i, value);
        self.same(set, done);
    }

    /// Checks what an object tells of itself.
    pub fn tells(&mut self, key: &Key, told: &Told) {
        let kind = self.segment.kind_of(key);
        self.same(kind, Ok(told.kind));
        let is_named = self.segment.instance_name(key) == Ok(told.name);
        self.holds(is_named);
        let class = self.segment.instance_class(key);
        self.same(class, Ok(told.class));
        let count = self.segment.instance_length(key);
        self.same(count, Ok(told.count));
    }
}
