ghost use Rattle.std.specs.Prelude.{◌≡◌, ◌≤◌, ℕ, List, IfSome, IfNone, length};
ghost use Rattle.object_model.specs.Tree.{name_lt};
ghost use Rattle.file_model.specs.Groups.{HasText};
ghost use Rattle.file_model.specs.RefusedGroups.{HasNoText};
ghost use Rattle.group_reader.specs.Texts.{EndTexts};

/// The text that stands in a heap's segment at an offset, ended by a NUL.
pub fn text_at(segment: &[u8], at: u64) -> Option<&[u8]>
    ensures found { IfSome result (λ text. HasText segment.now at text.now) }
    ensures none { IfNone result (HasNoText segment.now at) }
{
    if at > segment.len() as u64 {
        return None;
    }
    let rest = &segment[at as usize..];
    match rest.iter().position(|byte| *byte == 0) {
        Some(len) => Some(&rest[..len]),
        None => None,
    }
}

/// The offset behind the last NUL of a heap's segment: a text stands at each offset before it, and none from there on.
pub(crate) fn texts_end(segment: &[u8]) -> usize
    ensures { EndTexts segment.now result }
{
    let mut end = segment.len();
    while end > 0 && segment[end - 1] != 0 {
        end -= 1;
    }
    end
}

/// Whether the text that stands in a heap's segment at an offset comes before a name, by unsigned bytes. Of the text no
/// more bytes are read than the name has: many keys may name one long text.
pub fn text_before(segment: &[u8], at: u64, name: &[u8]) -> bool
    requires inside { at ≤ length segment.now }
    ensures { (text : List ℕ) → HasText segment.now at text → result ≡ name_lt text name.now }
{
    let rest = &segment[at as usize..];
    for i in 0..name.len() {
        if i >= rest.len() || rest[i] == 0 {
            return true;
        }
        if rest[i] != name[i] {
            return rest[i] < name[i];
        }
    }
    false
}
