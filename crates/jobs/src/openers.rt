// The blocks of the text, and which of them a text may have.
ghost use Rattle.std.specs.Prelude.{◌≡◌, Option};
ghost use Rattle.jobs.specs.Openers.{block_word, Opens, allows};
ghost use Rattle.texts.specs.Words.{Named};

use texts::{Expected, Value, Word};

#[derive(Clone, Copy, PartialEq, Eq, Debug)]
pub enum Block {
    Card,
    Member,
    Web,
    Heel,
    Splice,
    List,
    Coil,
    Press,
    Strike,
}

// Which blocks a text may have.
#[derive(Clone, Copy, PartialEq, Eq, Debug)]
pub enum Format {
    // cards, members, web sheets and a maker's list
    Webs,
    // all blocks
    Whole,
}

impl Value for Block {
    ghost reads = { Named block_word };

    fn read(word: &str) -> Option<Block> {
        match word {
            "card" => Some(Block::Card),
            "member" => Some(Block::Member),
            "web" => Some(Block::Web),
            "heel" => Some(Block::Heel),
            "splice" => Some(Block::Splice),
            "list" => Some(Block::List),
            "coil" => Some(Block::Coil),
            "press" => Some(Block::Press),
            "strike" => Some(Block::Strike),
            _ => None,
        }
    }

    fn expected() -> Expected {
        Expected::OneOf("card, member, web, heel, splice, list, coil, press, strike")
    }
}

impl Word for Block {
    ghost word = { block_word };

    fn word(self) -> &'static str {
        match self {
            Block::Card => "card",
            Block::Member => "member",
            Block::Web => "web",
            Block::Heel => "heel",
            Block::Splice => "splice",
            Block::List => "list",
            Block::Coil => "coil",
            Block::Press => "press",
            Block::Strike => "strike",
        }
    }
}

impl Format {
    pub fn allows(self, block: Block) -> bool
        ensures { result ≡ allows self block }
    {
        match (self, block) {
            (Format::Whole, _) => true,
            (Format::Webs, Block::Card | Block::Member | Block::Web | Block::List) => true,
            (Format::Webs, _) => false,
        }
    }

    // The block that the word opens, if the format allows it.
    pub fn opens(self, word: &str) -> Option<Block>
        ensures { Opens self word.now result }
    {
        Block::read(word).filter(|block| self.allows(*block))
    }

    // What stands where no block is open.
    pub(crate) fn openers(self) -> Expected {
        match self {
            Format::Webs => Expected::Block("card, member, web or list"),
            Format::Whole => Block::expected(),
        }
    }

    // The blocks of which there is one at most.
    pub(crate) fn stock(self) -> Expected {
        Expected::OneBlock(match self {
            Format::Webs => "list",
            Format::Whole => "list or coil",
        })
    }
}
