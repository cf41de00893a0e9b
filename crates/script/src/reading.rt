// What a line is made of, taken from the front of its words, or what was expected there.
ghost use Rattle.std.specs.Prelude.{◌≡◌, ◌≢◌, ℕ, ◌^◌, ◌<◌, List, [], ◌∷◌, map, OnOk, OnErr, MatchOption, decimal};
ghost use Rattle.script.specs.Reading.{BeginsWithNoNumber, Reads, SomeBelow, Takes};
ghost use Rattle.script.specs.Texts.{keyword_text};
ghost use Rattle.script.specs.Words.{left};

use crate::expected::Expected;
use crate::keyword::Keyword;
use crate::number::Decimal;
use crate::words::Words;
use std::alloc::Global;

impl Words<'_> {
    // Takes the next word, if it is such a number. Else all words are left.
    fn next_number<T: Decimal>(&mut self) -> Option<T>
        ensures taken { MatchOption result (left self.new ≡ left self.old) (λ n. left self.old ≡ decimal (T.value n) ∷ left self.new) }
        ensures fits { MatchOption result (BeginsWithNoNumber T.limit (left self.old)) (λ n. T.value n < T.limit) }
    {
        self.skip_blanks();
        let mut ahead = *self;
        let number = T::read(ahead.front_word()?)?;
        *self = ahead;
        Some(number)
    }

    // Takes the next word, which is to be such a number. A word that is none is taken, too.
    pub fn take<T: Decimal>(&mut self) -> Result<T, Expected>
        ensures takes { Takes (λ n. T.value n < T.limit) (λ n. decimal (T.value n) ∷ []) (left self.old) (left self.new) result }
        ensures refused { OnErr result (left self.old ≢ [] → (word : List ℕ) × (left self.old ≡ word ∷ left self.new)) }
    {
        let Some(word) = self.next_word() else {
            return Err(T::EXPECTED);
        };
        T::read(word).ok_or(T::EXPECTED)
    }

    // Takes one number or more: as many as come next.
    pub fn take_numbers<T: Decimal>(&mut self, heap: Global) -> Result<Vec<T>, Expected>
        ensures taken { Takes (λ v. SomeBelow T.limit (map T.value v.items)) (λ v. map decimal (map T.value v.items)) (left self.old) (left self.new) result }
        ensures all { OnOk result (BeginsWithNoNumber T.limit (left self.new)) }
    {
        let mut numbers = Vec::new(heap);
        while let Some(number) = self.next_number() {
            numbers.push(number)?;
        }
        if numbers.is_empty() {
            return Err(T::EXPECTED);
        }
        Ok(numbers)
    }

    pub fn take_keyword(&mut self, keyword: Keyword) -> Result<(), Expected>
        ensures { Takes (λ _. Unit {0}) (λ _. keyword_text keyword ∷ []) (left self.old) (left self.new) result }
    {
        match self.next_word() {
            Some(word) if word == keyword.text() => Ok(()),
            _ => Err(Expected::Word(keyword)),
        }
    }

    // Whether no word is left.
    pub fn end(mut self) -> Result<(), Expected>
        ensures { Reads (λ _. Unit {0}) (λ _. []) (left self.entry) result }
    {
        match self.next_word() {
            None => Ok(()),
            Some(_) => Err(Expected::End),
        }
    }

    // The number that is all that is left.
    pub fn last_number(mut self) -> Result<u64, Expected>
        ensures { Reads (λ n. n < 2 ^ 64) (λ n. decimal n ∷ []) (left self.entry) result }
    {
        let last = self.take()?;
        self.end()?;
        Ok(last)
    }
}
