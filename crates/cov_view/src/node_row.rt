// A node of a variant by numbers.
use cov_base::{Kind, List, Name, NodeNo};
use std::marker::Model;

/// A node but the root, in its directory. Contracts see it as a row of a variant.
#[derive(Debug, Drop)]
pub struct NodeRow {
    pub node: NodeNo,
    pub kind: Kind,
    pub parent: NodeNo,
    pub name: Name,
}

impl Model for NodeRow {
    ghost use Rattle.cov_base.specs.Rows.{Row};

    ghost Value = { Row };

    ghost view = { λ r. record { node = r.node; kind = r.kind; parent = r.parent; name = r.name } };

    ghost inverse = { λ v.
        record { node = v.node; kind = v.kind; parent = v.parent; name = v.name } };
}

/// The nodes of a variant but the root, in the order in which they were made.
pub type NodeRows = List<NodeRow>;
