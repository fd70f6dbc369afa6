// The words of the field: a `match` for each set of them, since a search over a table would keep the
// same words and add a proof that none is left out.
ghost use Rattle.texts.specs.Words.{Named, force_word, species_word, axis_word, mark_word, duration_word, service_word, area_word, turnings_word, rule_word};
ghost use Rattle.plates.specs.Turnings.{turning_word};

use super::faults::Expected;
use super::values::Value;
use plates::Turning;
use rules::{Area, Axis, Duration, FactorRule, Force, Mark, Service, Species, Turnings};

impl Value for Force {
    ghost reads = { Named force_word };

    fn read(word: &str) -> Option<Force> {
        match word {
            "tension" => Some(Force::Tension),
            "compression" => Some(Force::Compression),
            _ => None,
        }
    }

    fn expected() -> Expected {
        Expected::OneOf("tension, compression")
    }
}

impl Value for Species {
    ghost reads = { Named species_word };

    fn read(word: &str) -> Option<Species> {
        match word {
            "spruce" => Some(Species::SprucePineFir),
            "douglas" => Some(Species::DouglasFirLarch),
            _ => None,
        }
    }

    fn expected() -> Expected {
        Expected::OneOf("spruce, douglas")
    }
}

impl Value for Axis {
    ghost reads = { Named axis_word };

    fn read(word: &str) -> Option<Axis> {
        match word {
            "x" => Some(Axis::X),
            "y" => Some(Axis::Y),
            _ => None,
        }
    }

    fn expected() -> Expected {
        Expected::OneOf("x, y")
    }
}

impl Value for Mark {
    ghost reads = { Named mark_word };

    fn read(word: &str) -> Option<Mark> {
        match word {
            "plain" => Some(Mark::Plain),
            "edge" => Some(Mark::Edge),
            "end" => Some(Mark::End),
            _ => None,
        }
    }

    fn expected() -> Expected {
        Expected::OneOf("plain, edge, end")
    }
}

impl Value for Duration {
    ghost reads = { Named duration_word };

    fn read(word: &str) -> Option<Duration> {
        match word {
            "permanent" => Some(Duration::Permanent),
            "standard" => Some(Duration::Standard),
            "short" => Some(Duration::Short),
            _ => None,
        }
    }

    fn expected() -> Expected {
        Expected::OneOf("permanent, standard, short")
    }
}

impl Value for Service {
    ghost reads = { Named service_word };

    fn read(word: &str) -> Option<Service> {
        match word {
            "dry" => Some(Service::SeasonedDry),
            "unseasoned" => Some(Service::UnseasonedDry),
            "wet" => Some(Service::Wet),
            _ => None,
        }
    }

    fn expected() -> Expected {
        Expected::OneOf("dry, unseasoned, wet")
    }
}

impl Value for Area {
    ghost reads = { Named area_word };

    fn read(word: &str) -> Option<Area> {
        match word {
            "net" => Some(Area::Net),
            "gross" => Some(Area::Gross),
            _ => None,
        }
    }

    fn expected() -> Expected {
        Expected::OneOf("net, gross")
    }
}

impl Value for Turnings {
    ghost reads = { Named turnings_word };

    fn read(word: &str) -> Option<Turnings> {
        match word {
            "unturned" => Some(Turnings::UnturnedOnly),
            "turned" => Some(Turnings::TurnedOnly),
            "either" => Some(Turnings::Either),
            _ => None,
        }
    }

    fn expected() -> Expected {
        Expected::OneOf("unturned, turned, either")
    }
}

impl Value for Turning {
    ghost reads = { Named turning_word };

    fn read(word: &str) -> Option<Turning> {
        match word {
            "unturned" => Some(Turning::Unturned),
            "turned" => Some(Turning::Turned),
            _ => None,
        }
    }

    fn expected() -> Expected {
        Expected::OneOf("unturned, turned")
    }
}

impl Value for FactorRule {
    ghost reads = { Named rule_word };

    fn read(word: &str) -> Option<FactorRule> {
        match word {
            "table" => Some(FactorRule::Table),
            "formula" => Some(FactorRule::Formula),
            _ => None,
        }
    }

    fn expected() -> Expected {
        Expected::OneOf("table, formula")
    }
}
