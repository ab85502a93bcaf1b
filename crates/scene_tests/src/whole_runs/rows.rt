//! Documents, and what is told and written of each.
use scene_document::Limits;
use scene_model::{DocRefusal, Skip};

/// Under which rules a document is: entities drift; they belong to others; they drift, are watched, and are halted.
#[derive(Clone, Copy, Debug, PartialEq, Eq)]
pub enum Under {
    Drifting,
    Owning,
    Watched,
}

/// Why a frame was refused.
#[derive(Clone, Copy, Debug, PartialEq, Eq)]
pub enum Cause {
    /// The system at this place refused with the text `halted`.
    Halted(u32),
    Gone(u64),
    Ids,
    Indices,
    Generations,
    Commands,
    Other,
}

/// What is told of a run.
#[derive(Clone, Copy, Debug, PartialEq, Eq)]
pub enum Told {
    /// All frames were accepted, which are so many.
    Done(u32),
    /// So many frames were accepted, and this one was refused, from 1.
    Refused(u32, u32, Cause),
    /// The bytes are no document.
    NoDocument(DocRefusal),
    /// There was another error.
    Failed,
}

/// A document under rules and limits, and what comes of it, with any number of workers and in each store.
pub struct Row {
    pub name: &'static str,
    pub rules: Under,
    pub limits: Limits,
    /// The document without its workers, its store and the brace that closes it.
    pub document: &'static str,
    pub told: Told,
    pub skips: &'static [Skip],
    pub text: &'static str,
}

/// Two indices, of which each has one birth.
const TWO_BIRTHS: Limits = Limits {
    indices: 2,
    generation: 1,
    commands: 1_048_576,
};

/// One index, which has two births.
const ONE_INDEX: Limits = Limits {
    indices: 1,
    generation: 2,
    commands: 1_048_576,
};

/// One birth for each index.
const ONE_BIRTH: Limits = Limits {
    indices: 16_777_216,
    generation: 1,
    commands: 1_048_576,
};

/// One command a frame.
const ONE_COMMAND: Limits = Limits {
    indices: 16_777_216,
    generation: 2_147_483_647,
    commands: 1,
};

pub const ROWS: [Row; 39] = [
    Row {
        name: "no frames: ids and kinds ascend",
        rules: Under::Drifting,
        limits: Limits::FULL,
        document: "{\"next\":3,\"entities\":[{\"id\":2,\"parts\":{\"vel\":7}},{\"id\":0,\"parts\":{\"vel\":2,\"pos\":5}}]",
        told: Told::Done(0),
        skips: &[],
        text: "{\"entities\":[{\"id\":0,\"parts\":{\"pos\":5,\"vel\":2}},{\"id\":2,\"parts\":{\"vel\":7}}],\"globals\":{},\"next\":3}",
    },
    Row {
        name: "three frames of drift",
        rules: Under::Drifting,
        limits: Limits::FULL,
        document: "{\"next\":3,\"entities\":[{\"id\":0,\"parts\":{\"pos\":5,\"vel\":2}},{\"id\":1,\"parts\":{\"pos\":1}},{\"id\":2,\"parts\":{\"vel\":9}}],\"systems\":[{\"kind\":\"drift\"}],\"frames\":3",
        told: Told::Done(3),
        skips: &[],
        text: "{\"entities\":[{\"id\":0,\"parts\":{\"pos\":11,\"vel\":2}},{\"id\":1,\"parts\":{\"pos\":1}},{\"id\":2,\"parts\":{\"vel\":9}}],\"globals\":{},\"next\":3}",
    },
    Row {
        name: "four billion frames in which nothing happens",
        rules: Under::Drifting,
        limits: Limits::FULL,
        document: "{\"next\":1,\"entities\":[{\"id\":0,\"parts\":{\"vel\":2}}],\"frames\":4294967295",
        told: Told::Done(4_294_967_295),
        skips: &[],
        text: "{\"entities\":[{\"id\":0,\"parts\":{\"vel\":2}}],\"globals\":{},\"next\":1}",
    },
    Row {
        name: "commands in the first three of four billion frames, and nothing after them",
        rules: Under::Drifting,
        limits: Limits::FULL,
        document: "{\"next\":1,\"entities\":[{\"id\":0,\"parts\":{\"vel\":2}}],\"commands\":[[{\"put\":{\"id\":0,\"kind\":\"pos\",\"value\":5}}],[],[{\"kill\":7},{\"take\":{\"id\":0,\"kind\":\"vel\"}}]],\"frames\":4294967295",
        told: Told::Done(4_294_967_295),
        skips: &[Skip { frame: 3, place: 1 }],
        text: "{\"entities\":[{\"id\":0,\"parts\":{\"pos\":5}}],\"globals\":{},\"next\":1}",
    },
    Row {
        name: "a position goes round",
        rules: Under::Drifting,
        limits: Limits::FULL,
        document: "{\"next\":1,\"entities\":[{\"id\":0,\"parts\":{\"pos\":18446744073709551615,\"vel\":2}}],\"systems\":[{\"kind\":\"drift\"}],\"frames\":1",
        told: Told::Done(1),
        skips: &[],
        text: "{\"entities\":[{\"id\":0,\"parts\":{\"pos\":1,\"vel\":2}}],\"globals\":{},\"next\":1}",
    },
    Row {
        name: "a local system takes its turn beside a staged one",
        rules: Under::Drifting,
        limits: Limits::FULL,
        document: "{\"next\":1,\"entities\":[{\"id\":0,\"parts\":{\"pos\":5,\"vel\":2}}],\"systems\":[{\"kind\":\"drift\",\"local\":true},{\"kind\":\"drift\",\"name\":\"d\"}],\"frames\":2",
        told: Told::Done(2),
        skips: &[],
        text: "{\"entities\":[{\"id\":0,\"parts\":{\"pos\":13,\"vel\":2}}],\"globals\":{},\"next\":1}",
    },
    Row {
        name: "a system on each side of a barrier, and two that wait for others",
        rules: Under::Drifting,
        limits: Limits::FULL,
        document: "{\"next\":1,\"entities\":[{\"id\":0,\"parts\":{\"pos\":0,\"vel\":1}}],\"systems\":[{\"kind\":\"drift\",\"name\":\"a\"},{\"kind\":\"drift\",\"after\":[\"a\"]},{\"barrier\":true},{\"kind\":\"drift\",\"name\":\"b\",\"after\":[\"a\"]}],\"frames\":3",
        told: Told::Done(3),
        skips: &[],
        text: "{\"entities\":[{\"id\":0,\"parts\":{\"pos\":9,\"vel\":1}}],\"globals\":{},\"next\":1}",
    },
    Row {
        name: "barriers alone",
        rules: Under::Drifting,
        limits: Limits::FULL,
        document: "{\"next\":0,\"entities\":[],\"systems\":[{\"barrier\":true},{\"barrier\":true}],\"frames\":2",
        told: Told::Done(2),
        skips: &[],
        text: "{\"entities\":[],\"globals\":{},\"next\":0}",
    },
    Row {
        name: "who is born in a frame drifts from the next one on",
        rules: Under::Drifting,
        limits: Limits::FULL,
        document: "{\"next\":4,\"entities\":[{\"id\":3,\"parts\":{\"pos\":10,\"vel\":1}}],\"systems\":[{\"kind\":\"drift\"}],\"frames\":3,\"commands\":[[{\"spawn\":{\"pos\":0,\"vel\":5}}],[{\"put\":{\"id\":3,\"kind\":\"vel\",\"value\":100}}]]",
        told: Told::Done(3),
        skips: &[],
        text: "{\"entities\":[{\"id\":3,\"parts\":{\"pos\":112,\"vel\":100}},{\"id\":4,\"parts\":{\"pos\":10,\"vel\":5}}],\"globals\":{},\"next\":5}",
    },
    Row {
        name: "systems that don't conflict, beside one another",
        rules: Under::Watched,
        limits: Limits::FULL,
        document: "{\"next\":1,\"entities\":[{\"id\":0,\"parts\":{\"pos\":5,\"vel\":2}}],\"systems\":[{\"kind\":\"watch\"},{\"kind\":\"drift\"},{\"kind\":\"watch\"},{\"kind\":\"watch\"},{\"kind\":\"watch\"}],\"frames\":3",
        told: Told::Done(3),
        skips: &[],
        text: "{\"entities\":[{\"id\":0,\"parts\":{\"pos\":11,\"vel\":2}}],\"globals\":{},\"next\":1}",
    },
    Row {
        name: "one who halts beside one who drifts",
        rules: Under::Watched,
        limits: Limits::FULL,
        document: "{\"next\":1,\"entities\":[{\"id\":0,\"parts\":{\"pos\":5,\"vel\":2}}],\"systems\":[{\"kind\":\"drift\"},{\"kind\":\"watch\"},{\"kind\":\"halt\"}],\"frames\":2",
        told: Told::Refused(0, 1, Cause::Halted(3)),
        skips: &[],
        text: "{\"entities\":[{\"id\":0,\"parts\":{\"pos\":5,\"vel\":2}}],\"globals\":{},\"next\":1}",
    },
    Row {
        name: "the first of two who halt in a stage is told",
        rules: Under::Watched,
        limits: Limits::FULL,
        document: "{\"next\":1,\"entities\":[{\"id\":0,\"parts\":{\"pos\":5,\"vel\":2}}],\"systems\":[{\"kind\":\"watch\"},{\"kind\":\"halt\"},{\"kind\":\"drift\"},{\"kind\":\"halt\"}],\"frames\":1",
        told: Told::Refused(0, 1, Cause::Halted(2)),
        skips: &[],
        text: "{\"entities\":[{\"id\":0,\"parts\":{\"pos\":5,\"vel\":2}}],\"globals\":{},\"next\":1}",
    },
    Row {
        name: "one who halts in a later stage, behind a barrier",
        rules: Under::Watched,
        limits: Limits::FULL,
        document: "{\"next\":1,\"entities\":[{\"id\":0,\"parts\":{\"pos\":5,\"vel\":2}}],\"systems\":[{\"kind\":\"drift\"},{\"barrier\":true},{\"kind\":\"watch\"},{\"kind\":\"halt\"}],\"frames\":1",
        told: Told::Refused(0, 1, Cause::Halted(4)),
        skips: &[],
        text: "{\"entities\":[{\"id\":0,\"parts\":{\"pos\":5,\"vel\":2}}],\"globals\":{},\"next\":1}",
    },
    Row {
        name: "a staged one who halts is told before a local one",
        rules: Under::Watched,
        limits: Limits::FULL,
        document: "{\"next\":1,\"entities\":[{\"id\":0,\"parts\":{\"pos\":5,\"vel\":2}}],\"systems\":[{\"kind\":\"halt\",\"local\":true},{\"kind\":\"drift\"},{\"kind\":\"halt\"}],\"frames\":1",
        told: Told::Refused(0, 1, Cause::Halted(3)),
        skips: &[],
        text: "{\"entities\":[{\"id\":0,\"parts\":{\"pos\":5,\"vel\":2}}],\"globals\":{},\"next\":1}",
    },
    Row {
        name: "a local one who halts behind those who drift",
        rules: Under::Watched,
        limits: Limits::FULL,
        document: "{\"next\":1,\"entities\":[{\"id\":0,\"parts\":{\"pos\":5,\"vel\":2}}],\"systems\":[{\"kind\":\"drift\"},{\"kind\":\"halt\",\"local\":true},{\"kind\":\"drift\",\"local\":true}],\"frames\":1",
        told: Told::Refused(0, 1, Cause::Halted(2)),
        skips: &[],
        text: "{\"entities\":[{\"id\":0,\"parts\":{\"pos\":5,\"vel\":2}}],\"globals\":{},\"next\":1}",
    },
    Row {
        name: "a spawn that refers to one who lives",
        rules: Under::Owning,
        limits: Limits::FULL,
        document: "{\"next\":2,\"entities\":[{\"id\":0,\"parts\":{\"rank\":3}},{\"id\":1,\"parts\":{\"owner\":0}}],\"globals\":{\"era\":9},\"frames\":1,\"commands\":[[{\"spawn\":{\"owner\":1,\"rank\":4}},{\"spawn\":{\"owner\":2}}]]",
        told: Told::Done(1),
        skips: &[],
        text: "{\"entities\":[{\"id\":0,\"parts\":{\"rank\":3}},{\"id\":1,\"parts\":{\"owner\":0}},{\"id\":2,\"parts\":{\"owner\":1,\"rank\":4}},{\"id\":3,\"parts\":{\"owner\":2}}],\"globals\":{\"era\":9},\"next\":4}",
    },
    Row {
        name: "a take, a kill and puts",
        rules: Under::Owning,
        limits: Limits::FULL,
        document: "{\"next\":2,\"entities\":[{\"id\":0,\"parts\":{\"rank\":3}},{\"id\":1,\"parts\":{\"owner\":0}}],\"frames\":2,\"commands\":[[{\"take\":{\"id\":1,\"kind\":\"owner\"}},{\"kill\":0},{\"put\":{\"id\":1,\"kind\":\"rank\",\"value\":8}}],[{\"take\":{\"id\":1,\"kind\":\"owner\"}},{\"put\":{\"id\":1,\"kind\":\"owner\",\"value\":1}}]]",
        told: Told::Done(2),
        skips: &[],
        text: "{\"entities\":[{\"id\":1,\"parts\":{\"owner\":1,\"rank\":8}}],\"globals\":{},\"next\":2}",
    },
    Row {
        name: "skipped commands, each by its frame and place",
        rules: Under::Owning,
        limits: Limits::FULL,
        document: "{\"next\":2,\"entities\":[{\"id\":0,\"parts\":{}}],\"frames\":2,\"commands\":[[{\"kill\":1},{\"spawn\":{\"owner\":7}},{\"put\":{\"id\":0,\"kind\":\"owner\",\"value\":9}},{\"put\":{\"id\":0,\"kind\":\"rank\",\"value\":1}},{\"take\":{\"id\":4,\"kind\":\"rank\"}}],[{\"put\":{\"id\":0,\"kind\":\"rank\",\"value\":2}},{\"put\":{\"id\":2,\"kind\":\"rank\",\"value\":5}}]]",
        told: Told::Done(2),
        skips: &[
            Skip { frame: 1, place: 1 },
            Skip { frame: 1, place: 2 },
            Skip { frame: 1, place: 3 },
            Skip { frame: 1, place: 5 },
            Skip { frame: 2, place: 2 },
        ],
        text: "{\"entities\":[{\"id\":0,\"parts\":{\"rank\":2}}],\"globals\":{},\"next\":2}",
    },
    Row {
        name: "the least id with a reference that is gone, and the scene before its frame",
        rules: Under::Owning,
        limits: Limits::FULL,
        document: "{\"next\":4,\"entities\":[{\"id\":0,\"parts\":{}},{\"id\":1,\"parts\":{}},{\"id\":2,\"parts\":{\"owner\":0}},{\"id\":3,\"parts\":{\"owner\":1}}],\"globals\":{\"era\":0},\"frames\":3,\"commands\":[[{\"put\":{\"id\":0,\"kind\":\"rank\",\"value\":5}},{\"kill\":9}],[{\"spawn\":{\"owner\":1}},{\"kill\":1},{\"kill\":0},{\"kill\":1}]]",
        told: Told::Refused(1, 2, Cause::Gone(2)),
        skips: &[Skip { frame: 1, place: 2 }],
        text: "{\"entities\":[{\"id\":0,\"parts\":{\"rank\":5}},{\"id\":1,\"parts\":{}},{\"id\":2,\"parts\":{\"owner\":0}},{\"id\":3,\"parts\":{\"owner\":1}}],\"globals\":{\"era\":0},\"next\":4}",
    },
    Row {
        name: "a reference that is gone and put anew in the same frame",
        rules: Under::Owning,
        limits: Limits::FULL,
        document: "{\"next\":3,\"entities\":[{\"id\":0,\"parts\":{}},{\"id\":1,\"parts\":{\"owner\":0}},{\"id\":2,\"parts\":{\"owner\":0}}],\"frames\":1,\"commands\":[[{\"kill\":0},{\"put\":{\"id\":1,\"kind\":\"owner\",\"value\":2}},{\"take\":{\"id\":2,\"kind\":\"owner\"}}]]",
        told: Told::Done(1),
        skips: &[],
        text: "{\"entities\":[{\"id\":1,\"parts\":{\"owner\":2}},{\"id\":2,\"parts\":{}}],\"globals\":{},\"next\":3}",
    },
    Row {
        name: "no index is left",
        rules: Under::Owning,
        limits: TWO_BIRTHS,
        document: "{\"next\":1,\"entities\":[{\"id\":0,\"parts\":{}}],\"frames\":3,\"commands\":[[{\"spawn\":{\"owner\":0}}],[{\"put\":{\"id\":0,\"kind\":\"rank\",\"value\":1}},{\"spawn\":{\"owner\":5}},{\"spawn\":{}}]]",
        told: Told::Refused(1, 2, Cause::Indices),
        skips: &[],
        text: "{\"entities\":[{\"id\":0,\"parts\":{}},{\"id\":1,\"parts\":{\"owner\":0}}],\"globals\":{},\"next\":2}",
    },
    Row {
        name: "no index is left, and what drifted is as before",
        rules: Under::Drifting,
        limits: ONE_INDEX,
        document: "{\"next\":1,\"entities\":[{\"id\":0,\"parts\":{\"pos\":5,\"vel\":2}}],\"systems\":[{\"kind\":\"drift\"}],\"frames\":3,\"commands\":[[],[{\"spawn\":{}}]]",
        told: Told::Refused(1, 2, Cause::Indices),
        skips: &[],
        text: "{\"entities\":[{\"id\":0,\"parts\":{\"pos\":7,\"vel\":2}}],\"globals\":{},\"next\":1}",
    },
    Row {
        name: "no birth is left for an index",
        rules: Under::Owning,
        limits: TWO_BIRTHS,
        document: "{\"next\":1,\"entities\":[{\"id\":0,\"parts\":{}}],\"frames\":2,\"commands\":[[{\"kill\":0}],[{\"spawn\":{}}]]",
        told: Told::Refused(1, 2, Cause::Generations),
        skips: &[],
        text: "{\"entities\":[],\"globals\":{},\"next\":1}",
    },
    Row {
        name: "an index is used again, under a new id and without the parts that stood there",
        rules: Under::Owning,
        limits: ONE_INDEX,
        document: "{\"next\":7,\"entities\":[{\"id\":3,\"parts\":{\"owner\":3,\"rank\":1}}],\"frames\":1,\"commands\":[[{\"kill\":3},{\"spawn\":{\"rank\":6}}]]",
        told: Told::Done(1),
        skips: &[],
        text: "{\"entities\":[{\"id\":7,\"parts\":{\"rank\":6}}],\"globals\":{},\"next\":8}",
    },
    Row {
        name: "no id is left",
        rules: Under::Drifting,
        limits: Limits::FULL,
        document: "{\"next\":18446744073709551614,\"entities\":[],\"frames\":2,\"commands\":[[{\"spawn\":{\"pos\":1}}],[{\"spawn\":{}}]]",
        told: Told::Refused(1, 2, Cause::Ids),
        skips: &[],
        text: "{\"entities\":[{\"id\":18446744073709551614,\"parts\":{\"pos\":1}}],\"globals\":{},\"next\":18446744073709551615}",
    },
    Row {
        name: "more commands than the limit",
        rules: Under::Drifting,
        limits: ONE_COMMAND,
        document: "{\"next\":0,\"entities\":[],\"frames\":2,\"commands\":[[{\"spawn\":{\"pos\":4}}],[{\"kill\":0},{\"kill\":0}]]",
        told: Told::Refused(1, 2, Cause::Commands),
        skips: &[],
        text: "{\"entities\":[{\"id\":0,\"parts\":{\"pos\":4}}],\"globals\":{},\"next\":1}",
    },
    Row {
        name: "each index is in use, and one more is born",
        rules: Under::Drifting,
        limits: TWO_BIRTHS,
        document: "{\"next\":2,\"entities\":[{\"id\":0,\"parts\":{}},{\"id\":1,\"parts\":{}}],\"frames\":1,\"commands\":[[{\"spawn\":{}}]]",
        told: Told::Refused(0, 1, Cause::Indices),
        skips: &[],
        text: "{\"entities\":[{\"id\":0,\"parts\":{}},{\"id\":1,\"parts\":{}}],\"globals\":{},\"next\":2}",
    },
    Row {
        name: "more entities than indices, and one more is born",
        rules: Under::Drifting,
        limits: TWO_BIRTHS,
        document: "{\"next\":3,\"entities\":[{\"id\":0,\"parts\":{}},{\"id\":1,\"parts\":{}},{\"id\":2,\"parts\":{}}],\"frames\":1,\"commands\":[[{\"spawn\":{}}]]",
        told: Told::NoDocument(DocRefusal::TooManyEntities),
        skips: &[],
        text: "",
    },
    Row {
        name: "the index of one who dies has no birth left in the same frame",
        rules: Under::Drifting,
        limits: ONE_BIRTH,
        document: "{\"next\":1,\"entities\":[{\"id\":0,\"parts\":{}}],\"frames\":1,\"commands\":[[{\"kill\":0},{\"spawn\":{}}]]",
        told: Told::Refused(0, 1, Cause::Generations),
        skips: &[],
        text: "{\"entities\":[{\"id\":0,\"parts\":{}}],\"globals\":{},\"next\":1}",
    },
    Row {
        name: "more commands than the limit in the first frame",
        rules: Under::Drifting,
        limits: ONE_COMMAND,
        document: "{\"next\":0,\"entities\":[],\"frames\":1,\"commands\":[[{\"spawn\":{}},{\"spawn\":{}}]]",
        told: Told::Refused(0, 1, Cause::Commands),
        skips: &[],
        text: "{\"entities\":[],\"globals\":{},\"next\":0}",
    },
    Row {
        name: "a reference to nobody",
        rules: Under::Owning,
        limits: Limits::FULL,
        document: "{\"next\":1,\"entities\":[{\"id\":0,\"parts\":{\"owner\":1}}]",
        told: Told::NoDocument(DocRefusal::Dangling),
        skips: &[],
        text: "",
    },
    Row {
        name: "a system that the rules don't have",
        rules: Under::Owning,
        limits: Limits::FULL,
        document: "{\"next\":0,\"entities\":[],\"systems\":[{\"kind\":\"drift\"}],\"frames\":1",
        told: Told::NoDocument(DocRefusal::UnknownSystem),
        skips: &[],
        text: "",
    },
    Row {
        name: "more entities than indices",
        rules: Under::Drifting,
        limits: ONE_INDEX,
        document: "{\"next\":2,\"entities\":[{\"id\":0,\"parts\":{}},{\"id\":1,\"parts\":{}}]",
        told: Told::NoDocument(DocRefusal::TooManyEntities),
        skips: &[],
        text: "",
    },
    Row {
        name: "a fraction",
        rules: Under::Drifting,
        limits: Limits::FULL,
        document: "{\"next\":1,\"entities\":[{\"id\":0,\"parts\":{\"pos\":0.5}}]",
        told: Told::NoDocument(DocRefusal::NotWhole),
        skips: &[],
        text: "",
    },
    Row {
        name: "a system that writes entities",
        rules: Under::Watched,
        limits: Limits::FULL,
        document: "{\"next\":0,\"entities\":[],\"systems\":[{\"kind\":\"found\"}],\"frames\":1",
        told: Told::NoDocument(DocRefusal::ReservedWrite),
        skips: &[],
        text: "",
    },
    Row {
        name: "a local system that writes entities",
        rules: Under::Watched,
        limits: Limits::FULL,
        document: "{\"next\":0,\"entities\":[],\"systems\":[{\"kind\":\"drift\"},{\"kind\":\"found\",\"local\":true}]",
        told: Told::NoDocument(DocRefusal::ReservedWrite),
        skips: &[],
        text: "",
    },
    Row {
        name: "an unknown system is told before one that writes entities",
        rules: Under::Watched,
        limits: Limits::FULL,
        document: "{\"next\":0,\"entities\":[],\"systems\":[{\"kind\":\"found\"},{\"kind\":\"founds\"}]",
        told: Told::NoDocument(DocRefusal::UnknownSystem),
        skips: &[],
        text: "",
    },
    Row {
        name: "a configuration that the system has not",
        rules: Under::Watched,
        limits: Limits::FULL,
        document: "{\"next\":0,\"entities\":[],\"systems\":[{\"kind\":\"found\",\"config\":1}]",
        told: Told::NoDocument(DocRefusal::WrongShape),
        skips: &[],
        text: "",
    },
    Row {
        name: "a write to entities is told before too many commands",
        rules: Under::Watched,
        limits: ONE_COMMAND,
        document: "{\"next\":0,\"entities\":[],\"systems\":[{\"kind\":\"found\"}],\"frames\":1,\"commands\":[[{\"spawn\":{}},{\"spawn\":{}}]]",
        told: Told::NoDocument(DocRefusal::ReservedWrite),
        skips: &[],
        text: "",
    },
];
