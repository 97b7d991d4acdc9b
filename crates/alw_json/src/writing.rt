ghost use Rattle.std.specs.Prelude.{◌≡◌, [], ◌∷◌, ◌++◌, decimal, IfOk, OnOk};
ghost use Rattle.json.specs.Token.{begin_object, end_object, begin_array, end_array, key, string, number};
ghost use Rattle.json.specs.Print.{print};

use alw_num::NoMemory;
use alw_text::Text;
use json::Writer;
use std::alloc::Global;
use std::marker::Model;

// Bytes that a text has room for at first.
const FIRST_ROOM: usize = 128;

/// A text of JSON while it is written. Contracts see its tokens so far.
#[derive(Drop)]
pub struct Tokens {
    out: Writer,
}

impl Model for Tokens {
    ghost use Rattle.std.specs.Prelude.{◌≡◌, List, []};
    ghost use Rattle.json.specs.Token.{Token, tokens_code};

    ghost Value = { List Token };

    ghost coded = { tokens_code };

    ghost view = { λ t. t.out.tokens };

    ghost invariant = { λ t. t.out.before ≡ [] };
}

impl Tokens {
    // The text without a token.
    pub(crate) fn none(alloc: Global) -> Result<Tokens, NoMemory>
        ensures { IfOk result (λ tokens. tokens ≡ []) }
    {
        let out = Writer::new(Vec::with_capacity(alloc, FIRST_ROOM)?);
        Ok(Tokens { out })
    }

    // The text that the tokens have, without blanks.
    pub(crate) fn into_text(self) -> Text
        ensures { result ≡ print self }
    {
        let Tokens { out } = self;
        Text::from(out.into_inner())
    }

    /// Begins an object.
    pub fn begin_object(&mut self) -> Result<(), NoMemory>
        ensures { OnOk result (self.new ≡ self.old ++ begin_object ∷ []) }
    {
        self.out.begin_object()?;
        Ok(())
    }

    /// Ends an object.
    pub fn end_object(&mut self) -> Result<(), NoMemory>
        ensures { OnOk result (self.new ≡ self.old ++ end_object ∷ []) }
    {
        self.out.end_object()?;
        Ok(())
    }

    pub(crate) fn begin_array(&mut self) -> Result<(), NoMemory>
        ensures { OnOk result (self.new ≡ self.old ++ begin_array ∷ []) }
    {
        self.out.begin_array()?;
        Ok(())
    }

    pub(crate) fn end_array(&mut self) -> Result<(), NoMemory>
        ensures { OnOk result (self.new ≡ self.old ++ end_array ∷ []) }
    {
        self.out.end_array()?;
        Ok(())
    }

    pub(crate) fn key(&mut self, name: &str) -> Result<(), NoMemory>
        ensures { OnOk result (self.new ≡ self.old ++ key name.now ∷ []) }
    {
        self.out.key(name)?;
        Ok(())
    }

    pub(crate) fn number(&mut self, n: u64) -> Result<(), NoMemory>
        ensures { OnOk result (self.new ≡ self.old ++ number (decimal n) ∷ []) }
    {
        self.out.u64(n)?;
        Ok(())
    }

    pub(crate) fn string(&mut self, words: &str) -> Result<(), NoMemory>
        ensures { OnOk result (self.new ≡ self.old ++ string words.now ∷ []) }
    {
        self.out.string(words)?;
        Ok(())
    }
}
