#![tactic(auto, unfolding(crate::specs::LineTexts::word_text))]

ghost use Rattle.std.specs.Prelude.{◌≡◌, ◌∷◌, ◌++◌, codes, IfOk, OnOk, option_copied, option_map};
ghost use Rattle.std.specs.Fmt.{decimal};
ghost use Rattle.site_types.specs.CalendarTexts.{calendar_text};
ghost use Rattle.std.specs.List.{join_with_byte};
ghost use Rattle.site_types.specs.Forms.{form_words, row_stated};
ghost use Rattle.site_types.specs.Lines.{given};
ghost use Rattle.site_types.specs.LineTexts.{field_text};
ghost use Rattle.site_types.specs.WindowTexts.{windows_text};
ghost use Rattle.site_types.specs.ZoneWords.{offset_text};

use crate::joined::push_joined;
use crate::window_word::push_windows;
use crate::wording::push_number;
use crate::zone_word::push_offset;
use crate::{CalendarItem, Form, ListOf, Name, NoMemory, Windows};
use std::alloc::Global;

// A line as it is made: the words of a form, and behind them those of the keys that have a value.
#[derive(Debug, Drop)]
pub struct Line {
    text: Vec<u8>,
}

impl Line {
    pub fn new(alloc: Global, form: &Form) -> Result<Line, NoMemory>
        ensures { IfOk result (λ line. line.text.items ≡ join_with_byte 32 (form_words (row_stated form.now))) }
    {
        let mut text = form.first.to_vec(alloc)?;
        if let Some(second) = form.second {
            text.push(b' ')?;
            text.extend_from_slice(second)?;
        }
        Ok(Line { text })
    }

    pub fn text(&self) -> &[u8]
        ensures { result.now ≡ self.now.text.items }
    {
        &self.text
    }

    fn push_key(&mut self, key: &[u8]) -> Result<(), NoMemory>
        ensures { OnOk result (self.new.text.items ≡ self.old.text.items ++ 32 ∷ key.now ++ codes "=") }
    {
        self.text.push(b' ')?;
        self.text.extend_from_slice(key)?;
        self.text.extend_from_slice(b"=")
    }

    pub fn word(mut self, key: &[u8], value: &[u8]) -> Result<Line, NoMemory>
        ensures { IfOk result (λ line. line.text.items ≡ self.text.items ++ field_text (given key.now value.now)) }
    {
        self.push_key(key)?;
        self.text.extend_from_slice(value)?;
        Ok(self)
    }

    pub fn word_if(self, key: &[u8], value: Option<&[u8]>) -> Result<Line, NoMemory>
        ensures { IfOk result (λ line. line.text.items ≡ self.text.items ++ field_text (key.now, option_copied value.entry)) }
    {
        match value {
            Some(value) => self.word(key, value),
            None => Ok(self),
        }
    }

    pub fn name(self, key: &[u8], name: &Name) -> Result<Line, NoMemory>
        ensures { IfOk result (λ line. line.text.items ≡ self.text.items ++ field_text (given key.now name.now)) }
    {
        self.word(key, name.bytes())
    }

    pub fn name_if(self, key: &[u8], name: Option<&Name>) -> Result<Line, NoMemory>
        ensures { IfOk result (λ line. line.text.items ≡ self.text.items ++ field_text (key.now, option_copied name.entry)) }
    {
        self.word_if(key, name.map(Name::bytes))
    }

    pub fn number(mut self, key: &[u8], number: u64) -> Result<Line, NoMemory>
        ensures { IfOk result (λ line. line.text.items ≡ self.text.items ++ field_text (given key.now (decimal number))) }
    {
        self.push_key(key)?;
        push_number(&mut self.text, number)?;
        Ok(self)
    }

    pub fn number_if(self, key: &[u8], number: Option<u64>) -> Result<Line, NoMemory>
        ensures { IfOk result (λ line. line.text.items ≡ self.text.items ++ field_text (key.now, option_map decimal number)) }
    {
        match number {
            Some(number) => self.number(key, number),
            None => Ok(self),
        }
    }

    pub fn offset_if(mut self, key: &[u8], offset: Option<i32>) -> Result<Line, NoMemory>
        ensures { IfOk result (λ line. line.text.items ≡ self.text.items ++ field_text (key.now, option_map offset_text offset)) }
    {
        if let Some(offset) = offset {
            self.push_key(key)?;
            push_offset(&mut self.text, offset)?;
        }
        Ok(self)
    }

    pub fn calendar_if(
        mut self,
        key: &[u8],
        calendar: Option<&ListOf<CalendarItem>>,
    ) -> Result<Line, NoMemory>
        ensures { IfOk result (λ line. line.text.items ≡ self.text.items ++ field_text (key.now, option_map calendar_text (option_copied calendar.entry))) }
    {
        if let Some(calendar) = calendar {
            self.push_key(key)?;
            push_joined(&mut self.text, calendar.as_slice())?;
        }
        Ok(self)
    }

    pub fn windows(mut self, key: &[u8], windows: &Windows) -> Result<Line, NoMemory>
        ensures { IfOk result (λ line. line.text.items ≡ self.text.items ++ field_text (given key.now (windows_text windows.now))) }
    {
        self.push_key(key)?;
        push_windows(&mut self.text, windows)?;
        Ok(self)
    }
}
