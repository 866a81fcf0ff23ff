// The functions that both kinds of bounds have, by their words and by what they take.
ghost use Rattle.words.specs.Functions.{one_pair_word, pair_and_value_word, two_pairs_word, function_word};
ghost use Rattle.words.specs.Names.{Named};

use crate::unknown::UnknownWord;
use std::str::FromStr;

// What a pair is asked alone.
#[derive(Clone, Copy, Debug, PartialEq, Eq)]
pub enum OnePair {
    New,
    Lo,
    Hi,
    IsWraparound,
    Width,
    Mid,
    IsEmpty,
}

// What a pair is asked about a number.
#[derive(Clone, Copy, Debug, PartialEq, Eq)]
pub enum PairAndValue {
    IntersectsValue,
    MergeValue,
    ExpandBy,
}

// What a pair is asked about another.
#[derive(Clone, Copy, Debug, PartialEq, Eq)]
pub enum TwoPairs {
    IntersectsInterval,
    ContainsInterval,
    MergeInterval,
    Same,
}

#[derive(Clone, Copy, Debug, PartialEq, Eq)]
pub enum Function {
    Empty,
    Full,
    Take,
    OfPair(OnePair),
    OfPairAndValue(PairAndValue),
    OfTwoPairs(TwoPairs),
}

impl FromStr for OnePair {
    type Err = UnknownWord;

    ghost from_str_gives = { Named one_pair_word };

    fn from_str(word: &str) -> Result<OnePair, UnknownWord> {
        match word {
            "new" => Ok(OnePair::New),
            "lo" => Ok(OnePair::Lo),
            "hi" => Ok(OnePair::Hi),
            "is_wraparound" => Ok(OnePair::IsWraparound),
            "width" => Ok(OnePair::Width),
            "mid" => Ok(OnePair::Mid),
            "is_empty" => Ok(OnePair::IsEmpty),
            _ => Err(UnknownWord),
        }
    }
}

impl FromStr for PairAndValue {
    type Err = UnknownWord;

    ghost from_str_gives = { Named pair_and_value_word };

    fn from_str(word: &str) -> Result<PairAndValue, UnknownWord> {
        match word {
            "intersects_value" => Ok(PairAndValue::IntersectsValue),
            "merge_value" => Ok(PairAndValue::MergeValue),
            "expand_by" => Ok(PairAndValue::ExpandBy),
            _ => Err(UnknownWord),
        }
    }
}

impl FromStr for TwoPairs {
    type Err = UnknownWord;

    ghost from_str_gives = { Named two_pairs_word };

    fn from_str(word: &str) -> Result<TwoPairs, UnknownWord> {
        match word {
            "intersects_interval" => Ok(TwoPairs::IntersectsInterval),
            "contains_interval" => Ok(TwoPairs::ContainsInterval),
            "merge_interval" => Ok(TwoPairs::MergeInterval),
            "same" => Ok(TwoPairs::Same),
            _ => Err(UnknownWord),
        }
    }
}

impl FromStr for Function {
    type Err = UnknownWord;

    ghost from_str_gives = { Named function_word };

    fn from_str(word: &str) -> Result<Function, UnknownWord> {
        match word {
            "empty" => Ok(Function::Empty),
            "full" => Ok(Function::Full),
            "take" => Ok(Function::Take),
            _ => {
                if let Ok(asked) = word.parse() {
                    Ok(Function::OfPair(asked))
                } else if let Ok(asked) = word.parse() {
                    Ok(Function::OfPairAndValue(asked))
                } else {
                    Ok(Function::OfTwoPairs(word.parse()?))
                }
            }
        }
    }
}
