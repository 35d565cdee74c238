//! `Entry` for each family: which fields make its key, by this project's choice. Of several
//! attributes of one type the first counts.

mod addr;
mod link;
mod neigh;
mod route;
mod rule;
