//! The options of `run` and `check`, and the numbers that they take.

use crate::shown::Grouped;
use std::fmt;

/// An option, with the numbers that it takes.
#[derive(Clone, Copy)]
pub(crate) struct Setting {
    /// As it is written, `--window`.
    pub(crate) name: &'static str,
    pub(crate) limits: Limits,
    /// What it counts, after a blank; no text where the name says so.
    pub(crate) unit: &'static str,
    pub(crate) default: u64,
}

/// The numbers from `least` to `most`.
#[derive(Clone, Copy)]
pub(crate) struct Limits {
    pub(crate) least: u64,
    pub(crate) most: u64,
}

impl fmt::Display for Limits {
    fn fmt<W: fmt::Write>(&self, f: &mut fmt::Formatter<W>) -> fmt::Result {
        let least = Grouped(self.least);
        let most = Grouped(self.most);
        write!(f, "{least} to {most}")
    }
}

/// How many partitions a store may have.
pub(crate) const MOST_PARTITIONS: u32 = 16;

const PARTITIONS: Setting = Setting {
    name: "--partitions",
    limits: Limits { least: 1, most: 16 },
    unit: "",
    default: 2,
};

/// The option of `check`. It and those of `run` are the ones that `tc_words` reads, which `clients/tests/test_messages.py`
/// compares.
pub(crate) const CHECK_SETTINGS: [Setting; 1] = [PARTITIONS];

/// The options of `run`.
pub(crate) const RUN_SETTINGS: [Setting; 7] = [
    PARTITIONS,
    Setting {
        name: "--window",
        limits: Limits {
            least: 1,
            most: 4_096,
        },
        unit: " lines",
        default: 64,
    },
    Setting {
        name: "--memory",
        limits: Limits {
            least: 4_096,
            most: 16_777_216,
        },
        unit: " bytes",
        default: 262_144,
    },
    Setting {
        name: "--names",
        limits: Limits {
            least: 1,
            most: 16_777_216,
        },
        unit: "",
        default: 1_000_000,
    },
    Setting {
        name: "--docs",
        limits: Limits {
            least: 1,
            most: 4_000_000_000,
        },
        unit: "",
        default: 4_000_000_000,
    },
    Setting {
        name: "--merge",
        limits: Limits { least: 2, most: 8 },
        unit: " components",
        default: 4,
    },
    Setting {
        name: "--limit",
        limits: Limits {
            least: 0,
            most: 1_099_511_627_776,
        },
        unit: " bytes",
        default: 0,
    },
];

/// How many commands a demonstration may have.
pub(crate) const DEMO_LIMITS: Limits = Limits {
    least: 1,
    most: 1_000_000,
};
