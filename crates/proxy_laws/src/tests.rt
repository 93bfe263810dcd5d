mod by_chains;
