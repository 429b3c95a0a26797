//! Numbers that are found again by digests.

use crate::rt::vv::mixed;
use std::alloc::{AllocError, Global};

/// The numbers from 0 on, as many as were added, each with a digest by which it is found again (own).
#[derive(Drop)]
pub struct Chains {
    links: Vec<Link>,
    // the last number of each chain, counted from 1, or 0
    last: Vec<usize>,
}

/// A number's digest, and the number before it in its chain, counted from 1, or 0.
#[derive(Clone, Copy)]
struct Link {
    digest: u64,
    before: usize,
}

// how many chains there are at first
const FIRST_CHAINS: usize = 256;

impl Chains {
    /// No numbers yet. An error where memory is refused (own).
    pub fn new(alloc: Global) -> Result<Chains, AllocError> {
        let mut last = Vec::new(alloc);
        last.resize(FIRST_CHAINS, 0)?;
        Ok(Chains {
            links: Vec::new(alloc),
            last,
        })
    }

    /// No numbers, and none is found (own).
    pub fn none(alloc: Global) -> Chains {
        Chains {
            links: Vec::new(alloc),
            last: Vec::new(alloc),
        }
    }

    /// One number more, which has this digest. An error where memory is refused (own).
    pub fn add(&mut self, digest: u64) -> Result<(), AllocError> {
        let number = self.links.len();
        if 0 < self.last.len() && self.last.len() <= number {
            self.spread()?;
        }
        let before = self.put_last(digest, number);
        self.links.push(Link { digest, before })?;
        Ok(())
    }

    /// The numbers are spread over twice as many chains. An error where memory is refused.
    fn spread(&mut self) -> Result<(), AllocError> {
        let chains = self.last.len().saturating_mul(2);
        self.last.clear();
        self.last.resize(chains, 0)?;
        for number in 0..self.links.len() {
            let digest = self.digest(number);
            let before = self.put_last(digest, number);
            if let Some(link) = self.links.get_mut(number) {
                link.before = before;
            }
        }
        Ok(())
    }

    /// This number, which has this digest, is the last one of its chain: behind this one, counted from 1, or 0.
    fn put_last(&mut self, digest: u64, number: usize) -> usize {
        let chain = self.chain_of(digest);
        match self.last.get_mut(chain) {
            Some(last) => {
                let before = *last;
                *last = number.saturating_add(1);
                before
            }
            None => 0,
        }
    }

    /// The digest of this number, or 0 where it wasn't added (own).
    pub fn digest(&self, number: usize) -> u64 {
        match self.links.get(number) {
            Some(link) => link.digest,
            None => 0,
        }
    }

    /// The last number that has this digest, if there is one (own).
    pub fn last(&self, digest: u64) -> Option<usize> {
        self.up_to(self.last_of(self.chain_of(digest)), digest)
    }

    /// The last one before this number that has this digest, which this one has too, if there is one (own).
    pub fn before(&self, number: usize, digest: u64) -> Option<usize> {
        self.up_to(self.links.get(number)?.before, digest)
    }

    /// Of this one, counted from 1, and those before it in its chain the first one that has this digest.
    fn up_to(&self, last: usize, digest: u64) -> Option<usize> {
        let mut count = last;
        for _ in 0..self.links.len() {
            let number = count.checked_sub(1)?;
            let link = self.links.get(number)?;
            if link.digest == digest {
                return Some(number);
            }
            count = link.before;
        }
        None
    }

    /// The last number of a chain, counted from 1, or 0.
    fn last_of(&self, chain: usize) -> usize {
        match self.last.get(chain) {
            Some(number) => *number,
            None => 0,
        }
    }

    /// The chain of those that have this digest: by its highest bits once it is mixed, which depend on all of it.
    fn chain_of(&self, digest: u64) -> usize {
        let mixed = mixed(mixed(digest, 0), 0);
        let high = (mixed >> 32) as usize;
        high.checked_rem(self.last.len()).unwrap_or(0)
    }
}
