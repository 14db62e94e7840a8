// The layer at which a fault was found, and the word for it.
ghost use Rattle.std.specs.Prelude.{◌≡◌, Some, MatchResult, ◌≢◌};
ghost use Rattle.faults.specs.Layers.{layer_word};

use std::fmt;
use std::str::FromStr;

#[derive(Clone, Copy, PartialEq, Eq, Debug)]
pub enum Layer {
    Field,
    Line,
    Plan,
}

impl Layer {
    // The word for the layer: field, line or plan. `Display` has it from here. A case for each word, here and where
    // it is read, is a rule of the project.
    pub fn word(self) -> &'static str
        ensures { result.now ≡ layer_word self }
    {
        match self {
            Layer::Field => "field",
            Layer::Line => "line",
            Layer::Plan => "plan",
        }
    }
}

// A word that stands for no layer.
#[derive(Clone, Copy, PartialEq, Eq, Debug)]
pub struct NoLayer;

impl FromStr for Layer {
    ghost use Rattle.faults.specs.declared.layer.Layer.{Layer};

    type Err = NoLayer;

    ghost from_str_gives = { λ word r. MatchResult r (λ l. word ≡ layer_word l) (λ _. (l : Layer) → word ≢ layer_word l) };

    // The layer that the word stands for, if it is such a word.
    fn from_str(word: &str) -> Result<Layer, NoLayer> {
        match word {
            "field" => Ok(Layer::Field),
            "line" => Ok(Layer::Line),
            "plan" => Ok(Layer::Plan),
            _ => Err(NoLayer),
        }
    }
}

impl fmt::Display for Layer {
    ghost output = { λ l. Some (layer_word l) };

    fn fmt<W: fmt::Write>(&self, f: &mut fmt::Formatter<W>) -> fmt::Result {
        f.write_str(self.word())
    }
}
