//! Construction of objects from the arguments of a line.
ghost use Rattle.std.specs.Prelude.{◌≡◌, ◌≤◌, IsTrue, length};
ghost use Rattle.std.specs.List.{AllByRecursion};
ghost use Rattle.seg_types.specs.Commands.{Command, Construct, ConstructIt, Content as AskedContent, Elements};
ghost use Rattle.seg_types.specs.Commands.{FindOrConstruct, Strings};
ghost use Rattle.seg_types.specs.{Keys.index_key_seen, Keys.new_key_seen, Kinds.is_value, Names.Key as AnyKey};
ghost use Rattle.segment_lang.specs.Seen.{content_of};
ghost use Rattle.segment_manager.specs.State.{TakesStep, UnchangedIfRefused, handle_answer};
ghost use Rattle.segment_scripts.specs.Replies.{IsLineContent, IsMeant, Replies};

use crate::machine::ParseBuffers;
use crate::replies::{CommandAnswer, found, made};
use crate::scalars::{ScalarBuffers, ValueBuffer, copy_values, on_buffer};
use crate::text_buffers::{FEW, TextBuffer, copy_texts};
use seg_types::{Handle, IndexKey, NewKey, Refusal, Scalar, ScalarKind, by_value};
use segment_lang::{Content, LiteralValues, TextLiterals};
use segment_manager::{NewMap, NewNumbers, NewString, NewTexts, NewVector, ObjectInit, Segment};

/// A key under which a line makes an object.
pub trait LineKey {
    // The key.
    ghost key: { Self → AnyKey };

    // The command of a content.
    ghost command: { Self → AskedContent → Command };

    /// Does the command with what fills the object, and returns its answer.
    fn make<'a, F: ObjectInit>(&self, segment: &mut Segment, filling: &F) -> CommandAnswer<'a>
        requires object { F.stands filling.now }
        requires content { IsLineContent (key self.now) (F.content filling.now) }
        ensures { Replies segment.old segment.new (command self.now (F.content filling.now)) result };
}

/// An object is made.
impl LineKey for NewKey<'_> {
    ghost key = { new_key_seen };

    ghost command = { λ key content. Construct (new_key_seen key) content };

    #[inline(always)]
    fn make<'a, F: ObjectInit>(&self, segment: &mut Segment, filling: &F) -> CommandAnswer<'a> {
        made(segment.construct_under(self, filling))
    }
}

/// An object is found, or made if there is none.
impl LineKey for IndexKey<'_> {
    ghost key = { index_key_seen };

    ghost command = { λ key content. FindOrConstruct (index_key_seen key) content };

    #[inline(always)]
    fn make<'a, F: ObjectInit>(&self, segment: &mut Segment, filling: &F) -> CommandAnswer<'a> {
        found(segment.find_or_construct_under(self, filling))
    }
}

/// Executes a command that constructs an object with this content, and returns the answer.
#[tactic(auto, using(crate::proofs::values::Keys::line_some, crate::proofs::values::Keys::line_few))]
#[inline(never)]
pub fn make<'a, K: LineKey>(
    segment: &mut Segment,
    key: &K,
    content: Content<'_>,
    lent: &mut ParseBuffers,
) -> CommandAnswer<'a>
    requires { IsLineContent (K.key key.now) (content_of content) }
    ensures { Replies segment.old segment.new (K.command key.now (content_of content.entry)) result }
{
    match content {
        Content::Scalars { value, count } => {
            by_value!(value, value => key.make(segment, &NewNumbers { count, value }))
        }
        Content::Elements(values) => make_vector(segment, key, values, &mut lent.scalars),
        Content::String(text) => {
            let bytes = text.bytes(&mut lent.text);
            key.make(segment, &NewString { bytes })
        }
        Content::Strings(texts) => make_texts(segment, key, texts, &mut lent.texts),
        Content::NoPairs {
            key: keys,
            value: values,
        } => key.make(segment, &NewMap { keys, values }),
    }
}

/// Makes a vector of the values.
fn make_vector<'a, K: LineKey>(
    segment: &mut Segment,
    key: &K,
    values: LiteralValues<'_>,
    scalars: &mut ScalarBuffers,
) -> CommandAnswer<'a>
    requires { IsLineContent (K.key key.now) (Elements values.kind values.numbers) }
    ensures { Replies segment.old segment.new
        (K.command key.now (Elements values.entry.kind values.entry.numbers)) result }
{
    on_buffer!(values.kind(), scalars, make_buffered(segment, key, values))
}

/// Makes a vector of the values, which are of the type's kind.
fn make_buffered<'a, T: Scalar, K: LineKey>(
    segment: &mut Segment,
    key: &K,
    values: LiteralValues<'_>,
    buffer: &mut ValueBuffer<T>,
) -> CommandAnswer<'a>
    requires kind { values.kind ≡ T.kind }
    requires content { IsLineContent (K.key key.now) (Elements values.kind values.numbers) }
    requires range { AllByRecursion (λ z. IsTrue (is_value T.kind z)) values.numbers }
    requires max_count { length values.numbers ≤ 2048 }
    ensures { Replies segment.old segment.new
        (K.command key.now (Elements values.entry.kind values.entry.numbers)) result }
{
    copy_values(values, buffer);
    let values = buffer.as_slice();
    key.make(segment, &NewVector { values })
}

/// Makes a vector of strings of the texts.
#[inline(never)]
fn make_texts<'a, K: LineKey>(
    segment: &mut Segment,
    key: &K,
    texts: TextLiterals<'_>,
    buffer: &mut TextBuffer,
) -> CommandAnswer<'a>
    requires { IsLineContent (K.key key.now) (Strings texts) }
    ensures { Replies segment.old segment.new (K.command key.now (Strings texts.entry)) result }
{
    copy_texts(texts, buffer);
    if FEW < buffer.len() {
        return make_many(segment, key, buffer);
    }
    let few = buffer.few();
    let texts = few.as_slice();
    key.make(segment, &NewTexts { texts })
}

/// Constructs a vector of strings from a row of any length.
#[inline(never)]
fn make_many<'a, K: LineKey>(
    segment: &mut Segment,
    key: &K,
    buffer: &TextBuffer,
) -> CommandAnswer<'a>
    requires { IsLineContent (K.key key.now) (Strings buffer.now) }
    ensures { Replies segment.old segment.new (K.command key.now (Strings buffer.now)) result }
{
    let all = buffer.all();
    let texts = all.as_slice();
    key.make(segment, &NewTexts { texts })
}

/// Makes an array of the values, and returns its handle.
///
/// # Errors
///
/// As the segment's call. The objects are as before.
#[inline(never)]
pub fn construct_it(
    segment: &mut Segment,
    key: &NewKey,
    count: u32,
    mut values: LiteralValues<'_>,
) -> Result<Handle, Refusal>
    requires { IsMeant (ConstructIt (new_key_seen key.now) values.kind count values.numbers) }
    ensures step { TakesStep segment.old segment.new
        (ConstructIt (new_key_seen key.now) values.entry.kind count values.entry.numbers) (handle_answer result) }
    ensures refused { UnchangedIfRefused segment.old segment.new result }
{
    let kind = values.kind();
    segment.construct_values(key, kind, count, &mut values)
}
