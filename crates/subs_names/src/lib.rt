// The names of the kinds and of the groups of kinds that a subs text may hold, looked up byte for byte.
#![tactic(auto)]

ghost use Rattle.std.specs.Prelude.{◌≡◌};
ghost use Rattle.subs_names.specs.Names.{same, lookup_of};
ghost use Rattle.subs_names.specs.KindNames.{name_of};

use substitutions::Subs;

// A name of one kind or of a group of kinds.
#[derive(Clone, Copy, Debug, PartialEq, Eq)]
pub enum StepOrGroup {
    None,
    Normal,
    Verbatim,
    SpecialChars,
    Callouts,
    Quotes,
    Attributes,
    Replacements,
    Macros,
    PostReplacements,
}

// Whether the part is the name, byte for byte. A `match` on the names was tried: its tree of tests leaves 46 goals open. `part == name` was
// tried: it is a call for each name of the same length, subs texts took 1.2 to 1.5 times as long, and `quotes,macros` longer than the Rust.
fn is_name(part: &[u8], name: &[u8]) -> bool
    ensures { result ≡ same part.now name.now }
{
    part.len() == name.len() && part.iter().zip(name).all(|(a, b)| a == b)
}

// What the name is the name of. No `TryFrom<&[u8]>`: a name that is not in the list is no error, and `let .. else` takes an `Option` apart. Asked name by name,
// in the order of the definition `lookup_of` and each against a constant, and by no table of pairs, which would have slices, and a loop to walk them.
#[tactic(auto, unfolding(crate::specs::Names::lookup_of))]
pub fn look_up(name: &[u8]) -> Option<StepOrGroup>
    ensures { result ≡ lookup_of name.now }
{
    if is_name(name, b"none") {
        return Some(StepOrGroup::None);
    }
    if is_name(name, b"normal") {
        return Some(StepOrGroup::Normal);
    }
    if is_name(name, b"verbatim") {
        return Some(StepOrGroup::Verbatim);
    }
    if is_name(name, b"specialchars") {
        return Some(StepOrGroup::SpecialChars);
    }
    if is_name(name, b"callouts") {
        return Some(StepOrGroup::Callouts);
    }
    if is_name(name, b"quotes") {
        return Some(StepOrGroup::Quotes);
    }
    if is_name(name, b"attributes") {
        return Some(StepOrGroup::Attributes);
    }
    if is_name(name, b"replacements") {
        return Some(StepOrGroup::Replacements);
    }
    if is_name(name, b"macros") {
        return Some(StepOrGroup::Macros);
    }
    if is_name(name, b"post_replacements") {
        return Some(StepOrGroup::PostReplacements);
    }
    None
}

// A kind's name: its bytes, as a text has them. A `Display` could be printed and not compared.
pub fn name_of(sub: Subs) -> &'static [u8]
    ensures { result.now ≡ name_of sub }
{
    match sub {
        Subs::SpecialChars => b"specialchars",
        Subs::InlineFormatting => b"quotes",
        Subs::AttrRefs => b"attributes",
        Subs::CharReplacement => b"replacements",
        Subs::Macros => b"macros",
        Subs::PostReplacement => b"post_replacements",
        Subs::Callouts => b"callouts",
    }
}
