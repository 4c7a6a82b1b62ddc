use site_types::Text;

/// Whether a line of a form has one of its keys.
#[derive(Clone, Copy, Debug, PartialEq, Eq)]
pub enum Need {
    Always,
    /// It may be missing.
    Maybe,
    /// Of the keys of the form that are marked so there is one.
    OneOf,
    /// Of the keys of the form that are marked so there is each or none.
    AllOrNone,
    /// The form is written in one of two ways, and this key is of the first of them.
    OneWay,
    /// It is of the first way too, and may be missing there.
    OneWayMaybe,
    /// It is of the other way.
    OtherWay,
    /// It is of the other way too, and may be missing there.
    OtherWayMaybe,
}

/// A key of a form, as its line of the usage has it.
#[derive(Clone, Copy, Debug)]
pub struct KeyText {
    pub name: &'static str,
    pub need: Need,
}

/// A form, as its line of the usage has it.
#[derive(Clone, Copy, Debug)]
pub struct FormText {
    pub words: &'static [&'static str],
    pub keys: &'static [KeyText],
}

impl FormText {
    /// These words begin with its own.
    pub fn begins(&self, words: &[Text]) -> bool {
        self.words.len() <= words.len()
            && self
                .words
                .iter()
                .zip(words)
                .all(|(own, word)| own.as_bytes() == word.bytes())
    }

    /// Its first word is this one.
    pub fn is_of(&self, word: &Text) -> bool {
        self.words
            .first()
            .is_some_and(|own| own.as_bytes() == word.bytes())
    }

    /// It has this key.
    pub fn has(&self, key: &[u8]) -> bool {
        self.keys.iter().any(|own| own.name.as_bytes() == key)
    }
}

/// What stands before a word's first equals sign, or none where it has none.
pub fn key_of(word: &Text) -> Option<&[u8]> {
    let at = word.bytes().iter().position(|byte| *byte == b'=')?;
    word.bytes().get(..at)
}

/// Some word gives this key a value.
pub fn gives(words: &[Text], key: &[u8]) -> bool {
    words.iter().any(|word| key_of(word) == Some(key))
}
